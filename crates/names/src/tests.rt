// Both sides of each limit.
use crate::classes::*;
use crate::names::*;
use crate::paths::*;
use std::cmp::Ordering;

#[test]
fn each_class(rt: HostRuntime) {
    assert!(rt; is_node_byte(b'-') && is_property_byte(b'-'));
    assert!(rt; !is_node_byte(b'?') && is_property_byte(b'?'));
    assert!(rt; !is_node_byte(b'@') && !is_property_byte(b'@'));
}

#[test]
fn longest_words(rt: HostRuntime) {
    let longest = [b'a'; 31];
    let over = [b'a'; 32];
    assert!(rt; is_node_name(&longest) && !is_node_name(&over));
    assert!(rt; is_property_name(&longest) && !is_property_name(&over));
}

#[test]
fn longest_unit_address(rt: HostRuntime) {
    let mut longest = [b'a'; 63];
    longest[31] = b'@';
    assert!(rt; is_node_name(&longest));
    let mut over = [b'a'; 64];
    over[31] = b'@';
    assert!(rt; !is_node_name(&over));
}

#[test]
fn unit_addresses(rt: HostRuntime) {
    assert!(rt; is_node_name(b"uart@10") && !is_property_name(b"uart@10"));
    assert!(rt; !is_node_name(b"@10") && !is_node_name(b"uart@"));
    assert!(rt; !is_node_name(b"u@1@2"));
}

#[test]
fn short_names(rt: HostRuntime) {
    assert!(rt; !is_node_name(b"") && !is_property_name(b""));
    assert!(rt; is_property_name(b"#size") && !is_node_name(b"#size"));
    assert!(rt; find(b"a:b", b':') == 1 && find(b"a:b", b'/') == 3);
}

#[test]
fn texts_of_paths(rt: HostRuntime) {
    assert!(rt; is_path(b"/") && is_path(b"/soc/uart@10"));
    assert!(rt; !is_path(b"") && !is_path(b"soc"));
    assert!(rt; !is_path(b"/soc/") && !is_path(b"//soc"));
}

#[test]
fn parts_of_paths(rt: HostRuntime) {
    assert!(rt; same_bytes(parent_of(b"/soc/uart"), b"/soc"));
    assert!(rt; same_bytes(parent_of(b"/soc"), b"/"));
    assert!(rt; leaf_start(b"/soc/uart") == 5);
}

#[test]
fn document_order(rt: HostRuntime) {
    assert_eq!(rt; compare_paths(b"/soc/uart", b"/soc-a"), Ordering::Less);
    assert_eq!(rt; compare_names(b"soc/uart", b"soc-a"), Ordering::Greater);
}
