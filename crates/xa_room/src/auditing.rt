ghost use Rattle.std.specs.Prelude.{◌≡◌, ℕ, ◌-◌, ◌<◌, ◌≤◌, ◌⊎◌, ◌↔◌, [], ◌∷◌, length};
ghost use Rattle.std.specs.Prelude.{IfOk, IfSome, IsTrue, Err, Some, None, List, slice_get, true, false};
ghost use Rattle.xa_room.specs.Believed.Audit.{AddUp, Audits, HasFault, IsSound, Judges};
ghost use Rattle.xa_room.specs.HasMet.{HasMet};

use crate::comparing::same_receipt;
use std::alloc::{AllocError, Global};
use thiserror::Error;
use xa_history::Receipt;

/// What an audit finds at fault first.
#[derive(Clone, Copy, Debug, PartialEq, Eq, Error)]
pub enum AuditFault {
    /// A receipt was lost, or those that were told don't add up to those that the room kept.
    #[error("counts don't add up to the number of entries")]
    Count,
    /// This receipt's place is 0 or above the last. Receipts are counted from 0, places from 1.
    #[error("receipt {receipt} with place {place}, not 1 to {last}")]
    Place {
        receipt: usize,
        place: u64,
        last: u64,
    },
    /// A receipt before the one of this index has its place.
    #[error("receipt {0} repeats another's place")]
    Repeats(usize),
    /// The receipt of this index isn't the room's at its place.
    #[error("receipt {0} differs from the entry at its place")]
    Differs(usize),
    /// There was no memory for the audit.
    #[error("no memory")]
    Memory,
}

/// Whether the receipts that were told are those that a room kept, each a different one, and no event is missing: the room
/// lost none, and with those that were dropped they are as many as it kept.
pub fn audit(
    alloc: Global,
    kept: &[Receipt],
    lost: u64,
    told: &[Receipt],
    dropped: u64,
) -> Result<(), AuditFault>
    ensures { (result ≡ Err AuditFault.Memory) ⊎ Audits kept.now lost told.now dropped result }
{
    if !add_up(kept, lost, told, dropped) {
        return Err(AuditFault::Count);
    }
    judge(alloc, kept, told)
}

fn add_up(kept: &[Receipt], lost: u64, told: &[Receipt], dropped: u64) -> bool
    ensures { IsTrue result ↔ AddUp kept.now lost told.now dropped }
{
    match (told.len() as u64).checked_add(dropped) {
        Some(count) => lost == 0 && count == kept.len() as u64,
        None => false,
    }
}

fn judge(alloc: Global, kept: &[Receipt], told: &[Receipt]) -> Result<(), AuditFault>
    ensures { (result ≡ Err AuditFault.Memory) ⊎ Judges kept.now [] 0 told.now result }
{
    let Ok(mut met) = none_met(alloc, kept.len()) else {
        return Err(AuditFault::Memory);
    };
    for i in 0..told.len() {
        match judge_one(kept, &mut met, &told[i], i) {
            Some(fault) => return Err(fault),
            None => {}
        }
    }
    Ok(())
}

// The fault of one receipt, and the mark of its place.
fn judge_one(
    kept: &[Receipt],
    met: &mut Vec<bool>,
    receipt: &Receipt,
    i: usize,
) -> Option<AuditFault>
    requires { length met.old.items ≡ length kept.now }
    ensures len { length met.new.items ≡ length kept.now }
    ensures none { result ≡ None → (places : List ℕ) → HasMet met.old.items places
        → HasMet met.new.items (receipt.now.place ∷ places) × IsSound kept.now places receipt.now }
    ensures some { IfSome result (λ f. (places : List ℕ) → HasMet met.old.items places
        → HasFault kept.now places i receipt.now f) }
{
    let place = receipt.place;
    if is_outside(kept, place) {
        return Some(AuditFault::Place {
            receipt: i,
            place,
            last: kept.len() as u64,
        });
    }
    if is_met(met.as_slice(), place) {
        return Some(AuditFault::Repeats(i));
    }
    let at = (place - 1) as usize;
    if !same_receipt(receipt, &kept[at]) {
        return Some(AuditFault::Differs(i));
    }
    met[at] = true;
    None
}

fn none_met(alloc: Global, count: usize) -> Result<Vec<bool>, AllocError>
    ensures { IfOk result (λ v. (length v.items ≡ count) × HasMet v.items []) }
{
    vec![in alloc; false; count]
}

fn is_outside(kept: &[Receipt], place: u64) -> bool
    ensures yes { result ≡ true → (place ≡ 0) ⊎ (length kept.now < place) }
    ensures no { result ≡ false → (0 < place) × (place ≤ length kept.now) }
{
    place == 0 || place > kept.len() as u64
}

fn is_met(met: &[bool], place: u64) -> bool
    requires { (0 < place) × (place ≤ length met.now) }
    ensures { slice_get met.now (place - 1) ≡ Some result }
{
    met[(place - 1) as usize]
}
