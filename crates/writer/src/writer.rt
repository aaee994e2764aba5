// The writer.
ghost use Rattle.writer.specs.Strings.{StringsLaws};
ghost use Rattle.writer.specs.Written.{Images};

// What is written is a blob of the tree, by the format.
pub fn writing_stands()
    ensures strings { StringsLaws }
    ensures images { Images }
{}
