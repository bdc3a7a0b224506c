//! Tests of what no clause says, of a manager: what calls that are asked together are answered, and that its runs are
//! those of one copy. Calls that are asked one by one are scripts (tests/).
//!
//! - `managers`: calls of a manager, whichever allocation is refused; `plays`: ends of a play
//! - `groups`: calls that are asked together, and are kept or refused, and those that aren't in the group;
//!   `groups_stopped`: groups after which a disk stops; `grouped`: `Grouped`, which groups are asked; `group_play`:
//!   `Player`, how they are asked between the lines of a script
//! - `one_copy`: random runs, whose branches are executed one at a time; `one_copy_branches`, `one_copy_scripts`:
//!   what those need
//! - `rows`: `none_wrong`
#![tactic(auto)]

mod one_copy_scripts;
#[cfg(test)]
mod tests;
