/// Why no field stands at the front of some bytes. Whoever reads them has its own words for it.
#[derive(Clone, Copy, Debug, PartialEq, Eq)]
pub enum FieldFault {
    /// Its length, or what that announces, is cut.
    Cut = 1,
    /// It is outside its limits, or no XID.
    Limit = 2,
}
