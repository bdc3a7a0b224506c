//! Metrics whose label says what is counted.
ghost use Rattle.std.specs.Fmt.{decimal};
ghost use Rattle.std.specs.Prelude.{◌≡◌, ◌++◌, IfOk, OnOk};
ghost use Rattle.std.specs.Option.{option_copied};
ghost use Rattle.xa_operate.specs.Families.{call_word, closing, code_word, family_heading, family_help, family_label};
ghost use Rattle.xa_operate.specs.Families.{family_name, family_text, labelled, opening, sample, samples, value_of};
ghost use Rattle.xa_operate.specs.declared.family.Family.{Family};

use crate::metrics::push_heading;
use std::alloc::{AllocError, Global};

/// What a label tells apart: calls by the words of scripts, or replies by the names of their codes.
#[derive(Clone, Copy, Debug, PartialEq, Eq)]
pub(crate) enum Family {
    Calls,
    Codes,
}

impl Family {
    fn name(self) -> &'static str
        ensures { result.now ≡ family_name self }
    {
        match self {
            Family::Calls => "xarm_requests_total",
            Family::Codes => "xarm_replies_total",
        }
    }

    fn help(self) -> &'static str
        ensures { result.now ≡ family_help self }
    {
        match self {
            Family::Calls => "Calls answered since the server started, by what was called.",
            Family::Codes => "Replies since the server started, by their codes.",
        }
    }

    fn label(self) -> &'static str
        ensures { result.now ≡ family_label self }
    {
        match self {
            Family::Calls => "call",
            Family::Codes => "code",
        }
    }

    fn value(self, id: u64) -> Option<&'static str>
        ensures { option_copied result ≡ value_of self id }
    {
        match self {
            Family::Calls => call_word(id),
            Family::Codes => code_word(id),
        }
    }
}

/// Adds a sample of each count that isn't 0, if there is one.
pub(crate) fn push_family(
    alloc: Global,
    text: &mut Vec<u8>,
    numbers: &[u64],
    family: Family,
) -> Result<(), AllocError>
    ensures { OnOk result (text.new.items ≡ text.old.items ++ family_text family numbers.now) }
{
    let samples = samples(alloc, numbers, family)?;
    if samples.is_empty() {
        return Ok(());
    }
    push_front(text, family)?;
    text.extend_from_slice(samples.as_slice())
}

fn push_front(text: &mut Vec<u8>, family: Family) -> Result<(), AllocError>
    ensures { OnOk result (text.new.items ≡ text.old.items ++ family_heading family) }
{
    push_heading(text, family.name(), "counter", family.help())
}

fn samples(alloc: Global, numbers: &[u64], family: Family) -> Result<Vec<u8>, AllocError>
    ensures { IfOk result (λ text. text.items ≡ samples family numbers.now) }
{
    let mut text = Vec::new(alloc);
    let mut rest = numbers;
    while let [id, count, behind @ ..] = rest {
        push_sample(alloc, &mut text, family, *id, *count)?;
        rest = behind;
    }
    Ok(text)
}

fn push_sample(
    alloc: Global,
    text: &mut Vec<u8>,
    family: Family,
    id: u64,
    count: u64,
) -> Result<(), AllocError>
    ensures { OnOk result (text.new.items ≡ text.old.items ++ sample family id count) }
{
    if count == 0 {
        return Ok(());
    }
    match family.value(id) {
        Some(value) => push_labelled(
            alloc,
            text,
            family.name(),
            family.label(),
            value.as_bytes(),
            count,
        ),
        None => Ok(()),
    }
}

/// Adds a sample with a label.
pub(crate) fn push_labelled(
    alloc: Global,
    text: &mut Vec<u8>,
    name: &str,
    label: &str,
    value: &[u8],
    count: u64,
) -> Result<(), AllocError>
    ensures { OnOk result (text.new.items ≡ text.old.items ++ labelled name.now label.now value.now count) }
{
    let digits = format!(in alloc; "{count}")?;
    push_opening(text, name, label)?;
    push_closing(text, value, digits.as_bytes())
}

fn push_opening(text: &mut Vec<u8>, name: &str, label: &str) -> Result<(), AllocError>
    ensures { OnOk result (text.new.items ≡ text.old.items ++ opening name.now label.now) }
{
    text.extend_from_slice(name.as_bytes())?;
    text.push(b'{')?;
    text.extend_from_slice(label.as_bytes())?;
    text.extend_from_slice(b"=\"")
}

fn push_closing(text: &mut Vec<u8>, value: &[u8], digits: &[u8]) -> Result<(), AllocError>
    ensures { OnOk result (text.new.items ≡ text.old.items ++ closing value.now digits.now) }
{
    text.extend_from_slice(value)?;
    text.extend_from_slice(b"\"} ")?;
    text.extend_from_slice(digits)?;
    text.push(b'\n')?;
    Ok(())
}

/// The word of scripts for the call of an id.
fn call_word(id: u64) -> Option<&'static str>
    ensures { option_copied result ≡ call_word id }
{
    Some(match id {
        101 => "open",
        102 => "close",
        103 => "start",
        104 => "end",
        105 => "prepare",
        106 => "commit",
        107 => "rollback",
        108 => "recover",
        109 => "forget",
        110 => "get",
        111 => "put",
        112 => "delete",
        113 => "decide",
        114 => "doom",
        115 => "restart",
        116 => "timeout",
        117 => "tick",
        165 => "trim",
        166 => "branches",
        _ => return None,
    })
}

/// C193's name of the code of an id.
fn code_word(id: u64) -> Option<&'static str>
    ensures { option_copied result ≡ code_word id }
{
    Some(match id {
        491 => "XAER_OUTSIDE",
        492 => "XAER_DUPID",
        493 => "XAER_RMFAIL",
        494 => "XAER_PROTO",
        495 => "XAER_INVAL",
        496 => "XAER_NOTA",
        497 => "XAER_RMERR",
        498 => "XAER_ASYNC",
        500 => "XA_OK",
        503 => "XA_RDONLY",
        504 => "XA_RETRY",
        505 => "XA_HEURMIX",
        506 => "XA_HEURRB",
        507 => "XA_HEURCOM",
        508 => "XA_HEURHAZ",
        509 => "XA_NOMIGRATE",
        600 => "XA_RBROLLBACK",
        601 => "XA_RBCOMMFAIL",
        602 => "XA_RBDEADLOCK",
        603 => "XA_RBINTEGRITY",
        604 => "XA_RBOTHER",
        605 => "XA_RBPROTO",
        606 => "XA_RBTIMEOUT",
        607 => "XA_RBTRANSIENT",
        _ => return None,
    })
}
