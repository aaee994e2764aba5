// The places of a blob with their values, in document order.
ghost use Rattle.std.specs.Prelude.{◌≡◌, refl, [], ◌∷◌, ◌++◌, IfOk, OnOk};
ghost use Rattle.std.specs.Cmp.{eq_by_cmp_equiv, partial_equiv_from_equiv, partial_order_from_total};
ghost use Rattle.std.specs.Ordering.{as_partial_cmp, eq_by_cmp};
ghost use Rattle.names.specs.Paths.{child};
ghost use Rattle.reader.specs.Format.{Spelt};
ghost use Rattle.reader.specs.Handing.{ahead, item_of};
ghost use Rattle.reader.specs.Reading.{entries, path_in, innermost as top};
ghost use Rattle.tree.specs.Entries.{listed};
ghost use Rattle.tree.specs.Places.{order, node_at, property_at};
ghost use Rattle.listing.specs.Rows.{place_of, place_order, place_total, keyed, placed, held, with, Seated, arranged, stacked, told};

use names::paths::{ROOT, SLASH, compare_names, compare_paths, stem_len};
use reader::cursor::Tokens;
use reader::tokens::Item;
use std::alloc::{AllocError, Global};
use std::cmp::Ordering;
use std::collections::BTreeMap;

// A node, or a property of one, which then has a name.
#[derive(Drop)]
pub struct Place<'a> {
    pub path: Vec<u8>,
    pub name: Option<&'a [u8]>,
}

// Document order: a node, its properties by name, then its children. No derive gives it, since a path is not compared by its bytes.
impl<'a> Ord for Place<'a> {
    ghost cmp = { place_order };

    ghost total = { place_total };

    ghost matches_partial_cmp = { λ x y. refl };

    ghost matches_eq = { λ x y. refl };

    fn cmp(&self, other: &Place<'a>) -> Ordering {
        match compare_paths(self.path.as_slice(), other.path.as_slice()) {
            Ordering::Equal => match (self.name, other.name) {
                (None, None) => Ordering::Equal,
                (None, Some(_)) => Ordering::Less,
                (Some(_), None) => Ordering::Greater,
                (Some(m), Some(n)) => compare_names(m, n),
            },
            o => o,
        }
    }
}

impl<'a> PartialOrd for Place<'a> {
    ghost partial_cmp = { as_partial_cmp place_order };

    ghost laws = { partial_order_from_total place_total };

    fn partial_cmp(&self, other: &Place<'a>) -> Option<Ordering> {
        Some(self.cmp(other))
    }
}

impl<'a> PartialEq for Place<'a> {
    ghost eq = { eq_by_cmp place_order };

    ghost laws = { partial_equiv_from_equiv (eq_by_cmp_equiv place_total) };

    fn eq(&self, other: &Place<'a>) -> bool {
        self.cmp(other).is_eq()
    }
}

impl<'a> Eq for Place<'a> {
    ghost laws = { eq_by_cmp_equiv place_total };
}

// A place with its value, which is empty for a node.
#[derive(Drop)]
pub struct Row<'a> {
    pub place: Place<'a>,
    pub value: &'a [u8],
}

// Document order of rows, which is that of their places.
pub fn compare_rows(a: &Row, b: &Row) -> Ordering
    ensures { result ≡ order (place_of a.now.place) (place_of b.now.place) }
{
    a.place.cmp(&b.place)
}

// Where a row's place is among rows in document order, or else where it would go.
pub fn seat(rows: &[Row], row: &Row) -> Result<usize, usize>
    ensures { Seated (placed rows.now) (keyed row.now) result }
{
    for (i, other) in rows.iter().enumerate() {
        match compare_rows(row, other) {
            Ordering::Less => return Err(i),
            Ordering::Equal => return Ok(i),
            Ordering::Greater => {}
        }
    }
    Err(rows.len())
}

// Puts a row in its place among rows in document order; one at the same place is replaced.
pub fn put<'a>(rows: &mut Vec<Row<'a>>, row: Row<'a>) -> Result<(), AllocError>
    ensures { OnOk result (placed rows.new.items ≡ with (placed rows.old.items) (keyed row.entry)) }
{
    match seat(rows.as_slice(), &row) {
        Ok(i) => {
            drop(rows.remove(i));
            rows.insert(i, row)?;
        }
        Err(i) => {
            rows.insert(i, row)?;
        }
    }
    Ok(())
}

// Rows in document order, one at each place.
pub type Sorted<'a> = BTreeMap<Place<'a>, &'a [u8]>;

// Puts a row in its place in such a map; one at the same place is replaced.
pub fn enter_row<'a>(sorted: &mut Sorted<'a>, row: Row<'a>) -> Result<(), AllocError>
    ensures { OnOk result (held sorted.new.entries ≡ with (held sorted.old.entries) (keyed row.entry)) }
{
    sorted.insert(row.place, row.value)?;
    Ok(())
}

// Rows in document order; of two at one place the first stays.
pub fn arrange<'a>(heap: Global, rows: Vec<Row<'a>>) -> Result<Sorted<'a>, AllocError>
    ensures { IfOk result (λ m. held m.entries ≡ arranged (placed rows.entry.items)) }
{
    let mut sorted = BTreeMap::new(heap);
    for row in rows.into_iter().rev() {
        enter_row(&mut sorted, row)?;
    }
    Ok(sorted)
}

// The path of a child: the root's own slash does not come twice.
fn child_path(heap: Global, parent: &[u8], name: &[u8]) -> Result<Vec<u8>, AllocError>
    ensures { IfOk result (λ v. v.items ≡ child parent.now name.now) }
{
    let mut path = Vec::new(heap);
    path.extend_from_slice(&parent[..stem_len(parent)])?;
    path.push(SLASH)?;
    path.extend_from_slice(name)?;
    Ok(path)
}

// The rows of the tokens so far, and the paths of the open nodes, the innermost last.
#[derive(Drop)]
struct Collector<'a> {
    rows: Vec<Row<'a>>,
    trail: Vec<Vec<u8>>,
}

impl<'a> Collector<'a> {
    // The path of the innermost open node; the root's where there is none.
    fn innermost(&self) -> &[u8]
        ensures { result.now ≡ top (stacked self.now.trail.items) }
    {
        self.trail.last().map_or(ROOT, |path| path.as_slice())
    }

    // The path of a node so named in the open ones; outside all of them it is the root.
    fn path_in(&self, name: &[u8]) -> Result<Vec<u8>, AllocError>
        ensures { IfOk result (λ v. v.items ≡ path_in (stacked self.now.trail.items) name.now) }
    {
        let heap = *self.trail.allocator();
        if self.trail.is_empty() {
            return Vec::from_slice(heap, ROOT);
        }
        child_path(heap, self.innermost(), name)
    }

    // A row for a node that begins, which is then open.
    fn enter(&mut self, name: &[u8]) -> Result<(), AllocError>
        ensures rows { OnOk result (placed self.new.rows.items ≡ placed self.old.rows.items ++ ((node_at (path_in (stacked self.old.trail.items) name.now), []) ∷ [])) }
        ensures trail { OnOk result (stacked self.new.trail.items ≡ path_in (stacked self.old.trail.items) name.now ∷ stacked self.old.trail.items) }
    {
        let path = self.path_in(name)?;
        let place = Place {
            path: Vec::from_slice(*path.allocator(), path.as_slice())?,
            name: None,
        };
        self.rows.push(Row { place, value: b"" })?;
        self.trail.push(path)?;
        Ok(())
    }

    // A row for a property of the innermost open node.
    fn add_property(&mut self, name: &'a [u8], value: &'a [u8]) -> Result<(), AllocError>
        ensures rows { OnOk result (placed self.new.rows.items ≡ placed self.old.rows.items ++ ((property_at (top (stacked self.old.trail.items)) name.now, value.now) ∷ [])) }
        ensures trail { self.new.trail ≡ self.old.trail }
    {
        let place = Place {
            path: Vec::from_slice(*self.trail.allocator(), self.innermost())?,
            name: Some(name),
        };
        self.rows.push(Row { place, value })?;
        Ok(())
    }

    // What one item adds to the rows, and does to the open nodes.
    fn note(&mut self, item: Item<'a>) -> Result<(), AllocError>
        ensures { OnOk result ((rest : Spelt) → told (placed self.new.rows.items) (stacked self.new.trail.items) rest ≡ told (placed self.old.rows.items) (stacked self.old.trail.items) (item_of item.entry ∷ rest)) }
    {
        match item {
            Item::Begin { at: _, name } => self.enter(name),
            Item::Property { at: _, name, value } => self.add_property(name, value),
            Item::End { at: _ } => {
                drop(self.trail.pop());
                Ok(())
            }
        }
    }
}

// A row for each node and property, in the blob's order.
pub fn collect_rows<'a>(heap: Global, tokens: Tokens<'a>) -> Result<Vec<Row<'a>>, AllocError>
    ensures { IfOk result (λ v. placed v.items ≡ listed (entries [] (ahead tokens.entry.blob.bytes.now tokens.entry.blob.layout tokens.entry.next))) }
{
    let mut collector = Collector {
        rows: Vec::new(heap),
        trail: Vec::new(heap),
    };
    for item in tokens {
        collector.note(item)?;
    }
    Ok(collector.rows)
}
