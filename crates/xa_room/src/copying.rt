ghost use Rattle.std.specs.Prelude.{◌≡◌, IfOk};

use std::alloc::{AllocError, Global};
use xa_frame::{Body, KnownBranch, KnownBranches, Reply, Xids};
use xa_xid::Xid;

/// A copy of a reply. Values, XIDs and known branches take memory.
pub fn copied_reply(alloc: Global, reply: &Reply) -> Result<Reply, AllocError>
    ensures { IfOk result (λ r. r ≡ reply.now) }
{
    Ok(Reply {
        code: reply.code,
        detail: reply.detail,
        place: reply.place,
        body: copied_body(alloc, &reply.body)?,
    })
}

fn copied_body(alloc: Global, body: &Body) -> Result<Body, AllocError>
    ensures { IfOk result (λ b. b ≡ body.now) }
{
    Ok(match body {
        Body::Nothing => Body::Nothing,
        Body::Number(number) => Body::Number(*number),
        Body::Value(value) => Body::Value(value.copied(alloc)?),
        Body::Absent => Body::Absent,
        Body::Xids(xids) => Body::Xids(copied_xids(alloc, xids.as_slice())?),
        Body::Branches(branches) => Body::Branches(copied_branches(alloc, branches.as_slice())?),
        Body::Status(status) => Body::Status(*status),
    })
}

fn copied_xids(alloc: Global, xids: &[Xid]) -> Result<Xids, AllocError>
    ensures { IfOk result (λ copies. copies ≡ xids.now) }
{
    let mut copies = Vec::with_capacity(alloc, xids.len())?;
    for xid in xids {
        copies.push(xid.copied())?;
    }
    Ok(Xids::new(copies))
}

fn copied_branches(alloc: Global, branches: &[KnownBranch]) -> Result<KnownBranches, AllocError>
    ensures { IfOk result (λ copies. copies ≡ branches.now) }
{
    let mut copies = Vec::with_capacity(alloc, branches.len())?;
    for branch in branches {
        copies.push(branch.copied())?;
    }
    Ok(KnownBranches::new(copies))
}
