use crate::fault::ManagerFault;

/// An opening that was refused: why, and the two disks, the first one first.
#[derive(Debug, Drop)]
pub struct RefusedOpening<D> {
    pub fault: ManagerFault,
    pub first: D,
    pub second: D,
}
