// The formulas of the named models as texts.
ghost use Rattle.std.specs.Prelude.{◌≡◌};
ghost use Rattle.models.specs.Named.{formula_of};
ghost use Rattle.formulas.specs.Grammar.{Forms};
ghost use Rattle.formulas.specs.Texts.{text_of};

use models::Named;

// The text of a named model's formula. By the grammar, its tree is the formula that the model means.
pub fn formula_text(model: Named) -> &'static str
    ensures text { result.now ≡ text_of model }
    ensures means { Forms result.now (formula_of model) }
{
    match model {
        Named::Sc => "true",
        Named::Ibm370 =>
            "Write.x & Read.y & SameAddr | Write.x & Write.y | Read.x | Fence.x | Fence.y",
        Named::Tso => "Write.x & Write.y | Read.x | Fence.x | Fence.y",
        Named::Rmo => "Write.y & SameAddr | Fence.x | Fence.y | DataDep | ControlDep",
    }
}
