//! The written form of changes, as docs/FORMATS.md has it.

use mapjson::{read_change, write_change};
use mapparts::Profile;
use std::alloc::{AllocError, Global};
use std::test::Fail;

// Texts of changes, and what is written of these changes, white space aside.
const TEXTS: [(&str, &str); 3] = [
    (
        r#"{"base": 0}"#,
        r#"{
            "base": 0, "down": [], "grow_pool": [], "new_items": [], "new_pools": [], "new_upmap": [],
            "old_items": [], "old_pools": [], "old_upmap": [], "up": [], "weight": []
        }"#,
    ),
    (
        r#"{"new_items": [["1.0", [[7, 8]]]], "base": 18446744073709551615}"#,
        r#"{
            "base": 18446744073709551615, "down": [], "grow_pool": [], "new_items": [["1.0", [[7, 8]]]],
            "new_pools": [], "new_upmap": [], "old_items": [], "old_pools": [], "old_upmap": [], "up": [],
            "weight": []
        }"#,
    ),
    (
        r#"{
            "weight": [[3, 4294967295], [1, 0]], "up": [2, 0], "down": [4095, 1], "old_pools": [65535, 8],
            "new_pools": [
                {"size": 20, "rule": 1, "pgp_num": 4, "pg_num": 8, "kind": "erasure", "id": 3},
                {"size": 3, "rule": 0, "pgp_num": 1, "pg_num": 65536, "kind": "replicated", "id": 2}
            ],
            "grow_pool": [[2, 32, 32], [1, 16, 8]],
            "old_upmap": ["1.a", "1.0"], "old_items": ["65535.ffffffff", "9.10"],
            "new_upmap": [["1.1", [2, 0, 1]], ["1.0", []]],
            "new_items": [["2.0", [[1, 3]]], ["1.10", [[0, 2], [5, 4]]]],
            "new_crush": {
                "rules": [
                    {"id": 255, "kind": "erasure", "steps": [["take", -2], ["choose_indep", 0, 0], ["emit"]]},
                    {"id": 1, "kind": "replicated", "steps": [["set_choose_tries", 100],
                        ["set_chooseleaf_tries", 5], ["take", -1], ["chooseleaf_firstn", 0, 1], ["emit"]]}
                ],
                "buckets": [
                    {"id": -2, "items": [[1, 65536], [0, 131072]], "kind": "list", "type": 1},
                    {"id": -1, "items": [[-2, 196608]], "kind": "straw2", "type": 10}
                ]
            },
            "base": 41
        }"#,
        r#"{
            "base": 41, "down": [1, 4095], "grow_pool": [[1, 16, 8], [2, 32, 32]],
            "new_crush": {
                "buckets": [
                    {"id": -1, "items": [[-2, 196608]], "kind": "straw2", "type": 10},
                    {"id": -2, "items": [[1, 65536], [0, 131072]], "kind": "list", "type": 1}
                ],
                "rules": [
                    {"id": 1, "kind": "replicated", "steps": [["set_choose_tries", 100],
                        ["set_chooseleaf_tries", 5], ["take", -1], ["chooseleaf_firstn", 0, 1], ["emit"]]},
                    {"id": 255, "kind": "erasure", "steps": [["take", -2], ["choose_indep", 0, 0], ["emit"]]}
                ]
            },
            "new_items": [["1.10", [[0, 2], [5, 4]]], ["2.0", [[1, 3]]]],
            "new_pools": [
                {"id": 2, "kind": "replicated", "pg_num": 65536, "pgp_num": 1, "rule": 0, "size": 3},
                {"id": 3, "kind": "erasure", "pg_num": 8, "pgp_num": 4, "rule": 1, "size": 20}
            ],
            "new_upmap": [["1.0", []], ["1.1", [2, 0, 1]]],
            "old_items": ["9.10", "65535.ffffffff"], "old_pools": [8, 65535], "old_upmap": ["1.0", "1.a"],
            "up": [0, 2], "weight": [[1, 0], [3, 4294967295]]
        }"#,
    ),
];

// A text without white space.
fn compact(alloc: Global, text: &str) -> Result<Vec<u8>, AllocError> {
    let mut bytes = Vec::new(alloc);
    for byte in text.as_bytes() {
        if !byte.is_ascii_whitespace() {
            bytes.push(*byte)?;
        }
    }
    Ok(bytes)
}

// What is written of the change that a text states, with its base; nothing where it states none.
fn rewrite(alloc: Global, text: &[u8]) -> Option<Vec<u8>> {
    let (base, change) = read_change(alloc, text, Profile::Stock).ok()?;
    write_change(alloc, base, &change).ok()
}

// Whether this is written of the change that a text states, and again of the change that it states itself.
fn is_written(alloc: Global, text: &str, expected: &[u8]) -> bool {
    let Some(written) = rewrite(alloc, text.as_bytes()) else {
        return false;
    };
    let Some(again) = rewrite(alloc, &written) else {
        return false;
    };
    written.as_slice() == expected && again.as_slice() == expected
}

#[test]
fn changes_are_written_with_each_list_in_order(rt: HostRuntime) -> Result<(), Fail> {
    for (given, written) in TEXTS {
        let expected = compact(rt.alloc(), written)?;
        assert!(rt; is_written(rt.alloc(), given, &expected), "{given}");
    }
    Ok(())
}
