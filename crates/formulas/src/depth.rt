// How deep the brackets of a text nest.
ghost use Rattle.models.specs.Tells.{Tells};
ghost use Rattle.formulas.specs.Words.{TooDeep};

// How many more opening than closing brackets a beginning of a text may have.
const DEEPEST: usize = 8;

// Whether some beginning of the text has over 8 more opening than closing brackets.
pub fn too_deep(text: &[u8]) -> bool
    ensures { Tells result (TooDeep text.now) }
{
    let mut opened: usize = 0;
    let mut closed: usize = 0;
    // a chain would carry both counts through `scan`, and is no plainer
    for byte in text {
        match byte {
            b'(' => opened += 1,
            b')' => closed += 1,
            _ => {}
        }
        if opened.saturating_sub(closed) > DEEPEST {
            return true;
        }
    }
    false
}
