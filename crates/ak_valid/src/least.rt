//! The least kind of a line's faults.

ghost use Rattle.std.specs.Prelude.{◌≡◌, None, Some, OnOk, IfErr};
ghost use Rattle.std.specs.Option.{option_map_or};
ghost use Rattle.ak_valid.specs.Refusals.{Refuses};
ghost use Rattle.ak_valid.specs.Faults.{lesser as lesser_kind, kind_number};

use crate::refusal::{FaultKind, ValidRefused};

/// The lesser of two kinds that may be there.
pub fn lesser(a: Option<FaultKind>, b: Option<FaultKind>) -> Option<FaultKind>
    ensures { result ≡ lesser_kind a b }
{
    match (a, b) {
        (Some(first), Some(second)) => {
            if second.number() < first.number() {
                b
            } else {
                a
            }
        }
        (Some(_), None) => a,
        (None, _) => b,
    }
}

/// Refuses a line by its least kind, where it has one.
pub fn refuse(line: u32, fault: Option<FaultKind>) -> Result<(), ValidRefused>
    ensures ok { OnOk result (fault ≡ None) }
    ensures err { IfErr result
        (λ e. Refuses (option_map_or (λ kind. Some (line, kind_number kind)) fault None) e) }
{
    match fault {
        None => Ok(()),
        Some(kind) => Err(ValidRefused::At {
            line,
            kind: kind.number(),
        }),
    }
}
