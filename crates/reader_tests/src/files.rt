use flow_file::{FlowsRefusal, read_flows};
use model_reader::{FailuresRefusal, ModelRefusal, read_failures, read_model};
use net_core::{Bytes, List, Network, Places};
use session_script::{ScriptRefusal, read_script};
use snd_tokens::whole;
use sndlib_reader::{ReadRefusal, read_network};
use std::alloc::Global;
use std::fmt::Debug;
use text_kit::write::put_decimal;
use text_kit::{FaultWord, Refusal};
use worked_networks::{demands, failing, triangle};

/// What a file is read as, and what is counted in it.
#[derive(Clone, Copy)]
pub(crate) enum Format {
    /// A network: the number of its demands.
    Network,
    /// A network: how many digits its amounts have after the point.
    Digits,
    /// A model: 1 if all demands may be routed anew at a failure, and 2 more if setups are charged.
    Model,
    /// A failure list of the triangle: the number of states.
    Failures,
    /// A script for a network with three places: the number of commands.
    Script,
    /// A script for a network with six places: the number of commands.
    FineScript,
    /// Flows of two demands on the triangle in the states `none` and `f`: how many there are in the first.
    Flows,
}

fn network(alloc: Global, text: &[u8]) -> Result<usize, ReadRefusal> {
    let (_, demands) = read_network(alloc, text)?;
    Ok(demands.len())
}

fn digits(alloc: Global, text: &[u8]) -> Result<usize, ReadRefusal> {
    let (net, _) = read_network(alloc, text)?;
    Ok(net.places().digits())
}

fn model(alloc: Global, text: &[u8]) -> Result<usize, ModelRefusal> {
    let model = read_model(alloc, text)?;
    Ok(model.reconfigure as usize + 2 * model.charge as usize)
}

fn failures(alloc: Global, text: &[u8]) -> Result<usize, FailuresRefusal> {
    let Ok(net) = triangle(alloc, 0) else {
        return Err(FailuresRefusal::NoMemory);
    };
    Ok(read_failures(alloc, &net, text)?.count() as usize)
}

fn script(alloc: Global, places: Places, text: &[u8]) -> Result<usize, ScriptRefusal> {
    Ok(read_script(alloc, places, text)?.commands.len())
}

fn flows_on(alloc: Global, net: &Network, text: &[u8]) -> Result<usize, FlowsRefusal> {
    let Ok(states) = failing(alloc, net, &[&[0]]) else {
        return Err(FlowsRefusal::NoMemory);
    };
    let Ok(listed) = demands(alloc, net.nodes().len(), &[(0, 2, 12000), (0, 1, 0)]) else {
        return Err(FlowsRefusal::NoMemory);
    };
    let file = read_flows(alloc, net, &states, &listed, text)?;
    match file.flows.items().first() {
        Some(flows) => Ok(flows.len()),
        None => Ok(0),
    }
}

fn flows(alloc: Global, text: &[u8]) -> Result<usize, FlowsRefusal> {
    let Ok(net) = triangle(alloc, 0) else {
        return Err(FlowsRefusal::NoMemory);
    };
    flows_on(alloc, &net, text)
}

/// Appends a fault: its place and its word.
fn put_fault<K: FaultWord>(text: &mut Bytes, at: u64, kind: &K) -> Option<()> {
    put_decimal(text, at as u128).ok()?;
    text.push(b' ').ok()?;
    kind.put_word(text).ok()
}

/// Appends `read` and the number that is counted in a file, or the file's first fault.
fn put_outcome<K: FaultWord + Debug + Drop>(
    text: &mut Bytes,
    answer: Result<usize, Refusal<K>>,
) -> Option<()> {
    match answer {
        Ok(count) => {
            text.append(b"read ").ok()?;
            put_decimal(text, count as u128).ok()
        }
        Err(Refusal::Bad { at, kind }) => put_fault(text, at, &kind),
        Err(Refusal::NoMemory) => None,
    }
}

/// The result of reading a file in a format, as the rows of tables say it.
fn outcome(alloc: Global, format: Format, file: &[u8]) -> Option<Bytes> {
    let mut text = Bytes::new(alloc);
    match format {
        Format::Network => put_outcome(&mut text, network(alloc, file))?,
        Format::Digits => put_outcome(&mut text, digits(alloc, file))?,
        Format::Model => put_outcome(&mut text, model(alloc, file))?,
        Format::Failures => put_outcome(&mut text, failures(alloc, file))?,
        Format::Script => put_outcome(&mut text, script(alloc, Places::Three, file))?,
        Format::FineScript => put_outcome(&mut text, script(alloc, Places::Six, file))?,
        Format::Flows => put_outcome(&mut text, flows(alloc, file))?,
    }
    Some(text)
}

/// The bytes before the first `mark`, and those after it.
fn split(bytes: &[u8], mark: u8) -> Option<(&[u8], &[u8])> {
    for at in 0..bytes.len() {
        if bytes[at] == mark {
            return Some((&bytes[..at], &bytes[at + 1..]));
        }
    }
    None
}

/// Appends a name of three letters, a different one for each number up to 17,575.
fn put_name(text: &mut Bytes, i: u32) -> Option<()> {
    let a = b'a' + (i / 676 % 26) as u8;
    let b = b'a' + (i / 26 % 26) as u8;
    let c = b'a' + (i % 26) as u8;
    text.append(&[a, b, c]).ok()
}

/// Appends the bytes of a piece, with a line break for `~` and the name of this number for `%`.
fn put_piece(text: &mut Bytes, piece: &[u8], i: u32) -> Option<()> {
    for byte in piece {
        match *byte {
            b'~' => text.push(b'\n').ok()?,
            b'%' => put_name(text, i)?,
            other => text.push(other).ok()?,
        }
    }
    Some(())
}

/// Appends a piece as many times as the number before it says.
fn put_many(text: &mut Bytes, many: &[u8]) -> Option<()> {
    let (count, piece) = split(many, b' ')?;
    let count = u32::try_from(whole(count).ok()?).ok()?;
    for i in 0..count {
        put_piece(text, piece, i)?;
    }
    Some(())
}

/// Appends a body, in which `[3 a]` means `aaa`. It has at most one such part.
fn put_body(text: &mut Bytes, body: &[u8]) -> Option<()> {
    let Some((front, rest)) = split(body, b'[') else {
        return put_piece(text, body, 0);
    };
    let (many, end) = split(rest, b']')?;
    put_piece(text, front, 0)?;
    put_many(text, many)?;
    put_piece(text, end, 0)
}

/// The file of a header and a body.
fn file(alloc: Global, header: &[u8], body: &[u8]) -> Option<Bytes> {
    let mut text = List::from_slice(alloc, header).ok()?;
    put_body(&mut text, body)?;
    Some(text)
}

/// Whether the file of a row is read with the result before the row's bar.
fn is_row(alloc: Global, format: Format, header: &[u8], row: &[u8]) -> Option<bool> {
    let (expected, body) = split(row, b'|')?;
    let file = file(alloc, header, body)?;
    Some(outcome(alloc, format, file.items())?.items() == expected)
}

/// The number of the first row of a table that isn't complete, or whose file isn't read with the result before its bar. The files begin with
/// the header.
///
/// ```text
/// 51 section|NODE()              the fault `section` at place 51
/// read 1|..DEMANDS(D(A B)1 1 9)  a network with one demand
/// 57 limit-name|NODES([256 n])   256 times the same byte
/// 570 ended|NODES([128  %])      128 names of three letters, each after a space
/// ```
pub(crate) fn first_difference(
    alloc: Global,
    format: Format,
    header: &[u8],
    table: &[u8],
) -> Option<u32> {
    let mut rest = table;
    for i in 0..u32::MAX {
        if rest.is_empty() {
            return None;
        }
        let Some((row, rows)) = split(rest, b'\n') else {
            return Some(i);
        };
        if is_row(alloc, format, header, row) != Some(true) {
            return Some(i);
        }
        rest = rows;
    }
    Some(u32::MAX)
}
