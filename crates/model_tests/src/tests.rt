// Formula texts at each limit, tables, names and pairs.
use formulas::{formula_text, parse};
use models::{Both, Either, Facts, Kind, Model, Named, Refusal, Table};
use std::alloc::Global;
use std::test::Fail;

// The number and the place of a refusal: people go by these, so the cases say them.
type Told = (Option<u8>, Option<usize>);

fn told(refusal: Refusal) -> Told {
    (refusal.number(), refusal.place())
}

// Why a formula text is refused, if it is.
fn refusal(heap: Global, text: &[u8]) -> Option<Told> {
    parse(heap, text).err().map(told)
}

const TOO_LONG: Option<Told> = Some((Some(10), None));

const NO_FORMULA: Option<Told> = Some((Some(12), None));

const TOO_DEEP: Option<Told> = Some((Some(13), None));

const TEXTS: [(&str, Option<Told>); 38] = [
    // every word, and each sign with and without spaces
    ("true", None),
    ("Read.x", None),
    ("Read.y", None),
    ("Write.x", None),
    ("Write.y", None),
    ("Fence.x", None),
    ("Fence.y", None),
    ("SameAddr", None),
    ("DataDep", None),
    ("ControlDep", None),
    ("true&true|true&(true|true)", None),
    ("  ( Read.x )  &  true  ", None),
    // no formula
    ("", NO_FORMULA),
    ("     ", NO_FORMULA),
    ("true true", NO_FORMULA),
    ("true &", NO_FORMULA),
    ("| true", NO_FORMULA),
    ("(true", NO_FORMULA),
    ("true)", NO_FORMULA),
    ("()", NO_FORMULA),
    (")(((((((((", NO_FORMULA),
    // unknown words and bytes, at the first and at the last place
    ("Read.xx", Some((Some(11), Some(0)))),
    ("Read.x1", Some((Some(11), Some(6)))),
    ("1", Some((Some(11), Some(0)))),
    ("True", Some((Some(11), Some(0)))),
    ("tru", Some((Some(11), Some(0)))),
    ("ControlDe", Some((Some(11), Some(0)))),
    ("ControlDepp", Some((Some(11), Some(0)))),
    (".", Some((Some(11), Some(0)))),
    ("true & x", Some((Some(11), Some(7)))),
    ("true & true!", Some((Some(11), Some(11)))),
    ("true\ttrue", Some((Some(11), Some(4)))),
    ("Read.x.Read.y", Some((Some(11), Some(0)))),
    // brackets: eight are taken, nine are not, and an unknown byte comes first
    ("((((((((true))))))))", None),
    ("(((((((((true)))))))))", TOO_DEEP),
    ("(((((((((", TOO_DEEP),
    ("(((((((((?", Some((Some(11), Some(9)))),
    ("()()()()()()()()()()", NO_FORMULA),
];

#[test]
fn formula_texts(rt: HostRuntime) {
    for (text, expected) in TEXTS {
        assert_eq!(rt; refusal(rt.alloc(), text.as_bytes()), expected, "{}", text);
    }
}

#[test]
fn formula_lengths(rt: HostRuntime) {
    let heap = rt.alloc();
    let mut text = [b' '; 257];
    assert_eq!(rt; refusal(heap, &text[0..256]), NO_FORMULA);
    text[252..256].copy_from_slice(b"true");
    assert_eq!(rt; refusal(heap, &text[0..256]), None);
    assert_eq!(rt; refusal(heap, &text), TOO_LONG);
    text[0] = b'?';
    assert_eq!(rt; refusal(heap, &text[0..256]), Some((Some(11), Some(0))));
    assert_eq!(rt; refusal(heap, &text), TOO_LONG);
}

// Whether two models keep the same of all pairs of two kinds. Loops, here and in `alike`: as two `all`s, one in the
// other's closure, the borrow checker does not take them.
fn same_answers<A: Model, B: Model>(a: &A, b: &B, earlier: Kind, later: Kind) -> bool {
    for same_addr in [false, true] {
        for data_dep in [false, true] {
            for control_dep in [false, true] {
                let facts = Facts {
                    earlier,
                    later,
                    same_addr,
                    data_dep,
                    control_dep,
                };
                if a.keeps(facts) != b.keeps(facts) {
                    return false;
                }
            }
        }
    }
    true
}

fn alike<A: Model, B: Model>(a: &A, b: &B) -> bool {
    for earlier in Kind::all() {
        for later in Kind::all() {
            if !same_answers(a, b, earlier, later) {
                return false;
            }
        }
    }
    true
}

const NAMED: [(&str, &str); 4] = [
    ("SC", "true"),
    (
        "IBM370",
        "Write.x & Read.y & SameAddr | Write.x & Write.y | Read.x | Fence.x | Fence.y",
    ),
    ("TSO", "Write.x & Write.y | Read.x | Fence.x | Fence.y"),
    (
        "RMO",
        "Write.y & SameAddr | Fence.x | Fence.y | DataDep | ControlDep",
    ),
];

#[test]
fn named_models_are_their_formulas(rt: HostRuntime) -> Result<(), Fail> {
    for (name, text) in NAMED {
        let named = name.parse::<Named>()?;
        assert!(rt; formula_text(named) == text, "{}", name);
        let formula = parse(rt.alloc(), text.as_bytes())?;
        assert!(rt; alike(&named, &formula), "{}", name);
        assert!(rt; alike(&named.table(), &formula), "{}", name);
    }
    assert!(rt; "sc".parse::<Named>().is_err());
    assert!(rt; "TSO ".parse::<Named>().is_err());
    assert!(rt; "".parse::<Named>().is_err());
    Ok(())
}

#[test]
fn tables_and_pairs(rt: HostRuntime) -> Result<(), Fail> {
    let mut numbers = [[4; 5]; 5];
    assert!(rt; Table::try_from(numbers).is_ok());
    numbers[4][4] = 5;
    assert!(rt; Table::try_from(numbers).is_err());
    numbers[4][4] = 4;
    numbers[0][0] = 255;
    assert!(rt; Table::try_from(numbers).is_err());
    let first = Table::try_from([[2; 5]; 5])?;
    let second = Table::try_from([[3; 5]; 5])?;
    let any = Table::try_from([[4; 5]; 5])?;
    assert!(rt; alike(&Either { first, second }, &any));
    assert!(rt; !alike(&Both { first, second }, &any));
    assert!(rt; alike(&Both { first: any, second }, &second));
    Ok(())
}
