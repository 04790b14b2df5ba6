// Which words start what.
ghost use Rattle.std.specs.Prelude.{◌≡◌};
ghost use Rattle.walk.specs.Starts.{is_constant, is_condition, starts_item};

use lexemes::classes::*;

pub fn is_constant(class: u8) -> bool
    ensures { result ≡ is_constant class }
{
    matches!(class, TRUE | FALSE | ZERO | ONE | ONES | UNDEFINED)
}

pub fn is_condition(class: u8) -> bool
    ensures { result ≡ is_condition class }
{
    matches!(class, KW_SUPPRESSIF | KW_GRAYOUTIF | KW_DISABLEIF)
}

// The items that are no conditions.
pub fn starts_item(class: u8) -> bool
    ensures { result ≡ starts_item class }
{
    matches!(
        class,
        KW_SUBTITLE | KW_TEXT | KW_LABEL | KW_GOTO | KW_CHECKBOX | KW_NUMERIC | KW_ONEOF
    )
}
