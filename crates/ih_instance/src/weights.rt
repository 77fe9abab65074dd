//! The weights of the costs. The fourth, of nurses' excess workload, has two spellings.

ghost use Rattle.std.specs.Prelude.{◌≡◌};
ghost use Rattle.serde_json.specs.View.{view};
ghost use Rattle.ih_format.specs.Checks.{under};
ghost use Rattle.ih_instance.specs.Instance.{has, one_spelling, weight, weights};

use ih_format::{json_values, keys};
use ih_tables::{Fault, Key, Place, Refusal, Weights};
use serde_json::Value;

fn has(object: &Value, key: Key) -> bool
    ensures { result ≡ has (view object.now) key }
{
    object.get(key.name()).is_some()
}

// The spelling of the fourth weight that is there, and the first where neither is.
fn one_spelling(object: &Value, at: Place) -> Result<Key, Refusal>
    ensures { result ≡ one_spelling at (view object.now) }
{
    let first = has(object, Key::NurseEccessiveWorkload);
    let second = has(object, Key::NurseExcessiveWorkload);
    if first && second {
        return Err(Refusal {
            fault: Fault::TwoWeights,
            at,
        });
    }
    if second {
        return Ok(Key::NurseExcessiveWorkload);
    }
    Ok(Key::NurseEccessiveWorkload)
}

fn weight(object: &Value, key: Key, at: Place) -> Result<u32, Refusal>
    ensures { result ≡ weight at (view object.now) key }
{
    keys::number(object, key, 0, 100_000, at)
}

#[tactic(auto, unfolding(crate::specs::Instance::weights))]
fn weights(value: &Value, at: Place) -> Result<Weights, Refusal>
    ensures { result ≡ weights at (view value.now) }
{
    let _ = json_values::object(value, at)?;
    let mixed_age = weight(value, Key::RoomMixedAge, at)?;
    let skill = weight(value, Key::RoomNurseSkill, at)?;
    let continuity = weight(value, Key::ContinuityOfCare, at)?;
    let spelling = one_spelling(value, at)?;
    let overload = weight(value, spelling, at)?;
    let theatres = weight(value, Key::OpenOperatingTheater, at)?;
    let transfers = weight(value, Key::SurgeonTransfer, at)?;
    let delay = weight(value, Key::PatientDelay, at)?;
    let unscheduled = weight(value, Key::UnscheduledOptional, at)?;
    Ok(Weights {
        w: [
            mixed_age as i64,
            skill as i64,
            continuity as i64,
            overload as i64,
            theatres as i64,
            transfers as i64,
            delay as i64,
            unscheduled as i64,
        ],
    })
}

/// The weights under their key.
pub fn under(object: &Value, at: Place) -> Result<Weights, Refusal>
    ensures { result ≡ under at (view object.now) Key.Weights weights }
{
    let value = json_values::value_of(object, Key::Weights, at)?;
    weights(value, at.key(Key::Weights))
}
