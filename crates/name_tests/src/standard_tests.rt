// Names of the standard in both cases of letters, and names that are none.
use iec_tables::elem::Elem;
use standard_names::{
    BlockPart, StandardBlock, StandardFunction, block_part, block_parts, elem_named,
    is_left_out_function, is_left_out_type, is_standard, standard_block, standard_function,
};

const FUNCTIONS: [(&str, Option<StandardFunction>); 7] = [
    ("ABS", Some(StandardFunction::Abs)),
    ("limit", Some(StandardFunction::Limit)),
    (
        "Int_To_Dint",
        Some(StandardFunction::Convert(Elem::Int, Elem::Dint)),
    ),
    (
        "LWORD_TO_TIME",
        Some(StandardFunction::Convert(Elem::Lword, Elem::Time)),
    ),
    ("INT_TO_INT", None),
    ("REAL_TO_INT", None),
    ("INT_TO_", None),
];

fn names_function(name: &str, function: Option<StandardFunction>) -> bool {
    standard_function(name.as_bytes()) == function
}

#[test]
fn functions(rt: HostRuntime) {
    for (name, function) in &FUNCTIONS {
        assert!(rt; names_function(name, *function), "{name}");
    }
}

fn has_type(part: Option<BlockPart>, elem: Option<Elem>) -> bool {
    match part {
        Some(part) => elem == Some(part.elem),
        None => elem.is_none(),
    }
}

fn are_blocks() -> bool {
    standard_block(b"r_trig") == Some(StandardBlock::RTrig)
        && standard_block(b"CTUD").is_none()
        && has_type(block_part(StandardBlock::Ton, b"et"), Some(Elem::Time))
        && has_type(block_part(StandardBlock::Ctu, b"M"), None)
        && block_parts(StandardBlock::Ctd).len() == 5
}

fn are_types() -> bool {
    elem_named(b"uSint") == Some(Elem::Usint) && elem_named(b"REAL").is_none()
}

#[test]
fn blocks(rt: HostRuntime) {
    assert!(rt; are_blocks());
    assert!(rt; are_types());
}

/// A name; whether it is one of the standard's, of a function that is left out, of a type that is.
const LEFT_OUT: [(&str, bool, bool, bool); 8] = [
    ("sqrt", false, true, true),
    ("REAL_TO_INT", false, true, true),
    ("dt_to_date_and_time", false, true, true),
    ("INT_TO_DINT", true, false, false),
    ("INT_TO_INT", false, false, false),
    ("ctud", false, false, true),
    ("Real", false, false, true),
    ("tp", true, false, false),
];

fn is_left_out(name: &[u8], standard: bool, function: bool, ty: bool) -> bool {
    is_standard(name) == standard
        && is_left_out_function(name) == function
        && is_left_out_type(name) == ty
}

#[test]
fn left_out(rt: HostRuntime) {
    for (name, standard, function, ty) in &LEFT_OUT {
        assert!(rt;
            is_left_out(name.as_bytes(), *standard, *function, *ty),
            "{name}"
        );
    }
}
