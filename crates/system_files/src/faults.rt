ghost use Rattle.std.specs.Prelude.{◌≡◌, Ok, IfOk, is_ok};

use hyper_outside::Failed;

/// The answer of a call, `Failed` in place of an error.
pub fn or_failed<T: Drop, E: Drop>(answer: Result<T, E>) -> Result<T, Failed>
    ensures same { IfOk answer (λ x. result ≡ Ok x) }
    ensures answer { is_ok result ≡ is_ok answer }
{
    match answer {
        Ok(value) => Ok(value),
        Err(_) => Err(Failed),
    }
}
