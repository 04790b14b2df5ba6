// Values of expressions (document 02, W-202) by number, in a slice that a caller lends. Where there is no such value,
// reading gives an undefined one and writing changes nothing.
#![tactic(auto)]

ghost use Rattle.std.specs.Prelude.{◌≡◌};
ghost use Rattle.stored.specs.Stored.{value_at, with_value};

use operators::Scalar;

// Value k.
pub fn value_at(values: &[Scalar], k: usize) -> Scalar
    ensures { result ≡ value_at values.now k }
{
    values.get(k).copied().unwrap_or(Scalar::Undefined)
}

// Sets value k.
pub fn put_value(values: &mut [Scalar], k: usize, v: Scalar)
    ensures { values.new ≡ with_value values.old k v }
{
    if k < values.len() {
        values[k] = v;
    }
}
