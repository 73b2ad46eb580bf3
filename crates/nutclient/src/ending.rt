//! How a program that meets a fault ends: the lines that report it, and the status.
ghost use Rattle.std.specs.Prelude.{◌≡◌, ◌≤◌, ◌+◌, ◌++◌, length};
ghost use Rattle.nutwords.specs.declared.limits.TheConstants.{NAME_LIMIT};
ghost use Rattle.nutclient.specs.Ending.{Reports, fault_lines, line_after};
ghost use Rattle.nutclient.specs.declared.limits.TheConstants.{WHY_LIMIT};

use crate::Program;
use nutio::{Sink, send};
use nutrequest::ClientFault;
use nutwords::Line;

/// Reports a fault and, where that is explained, why it came. Gives the status that the program
/// ends with. A line that isn't taken can't be reported either.
pub(crate) fn report<E: Sink>(
    err: &mut E,
    program: Program,
    is_explained: bool,
    fault: &ClientFault,
    why: &[u8],
) -> u8
    requires { length why.now ≤ WHY_LIMIT }
    ensures { Reports E.contents E.failures is_explained program fault.now why.now err.old result
        err.new }
{
    let _ = send(err, &fault_lines(program, is_explained, fault, why));
    fault.status()
}

/// The line that reports a fault, and the one that says why it came, where that is explained and
/// there is something to say.
fn fault_lines(program: Program, is_explained: bool, fault: &ClientFault, why: &[u8]) -> Line
    requires { length why.now ≤ WHY_LIMIT }
    ensures { result.items ≡ fault_lines program is_explained fault.now why.now }
{
    let mut lines = Line::new();
    let (text, word) = fault.text();
    push_line(&mut lines, program, text, word);
    if is_explained && !why.is_empty() {
        push_line(&mut lines, program, why, b"");
    }
    lines
}

/// Appends a line of two texts, after the program's name.
fn push_line(lines: &mut Line, program: Program, text: &[u8], rest: &[u8])
    requires lines { length lines.old.items ≤ 100 }
    requires text { length text.now ≤ WHY_LIMIT }
    requires rest { length rest.now ≤ NAME_LIMIT }
    ensures line { lines.new.items ≡ lines.old.items ++ line_after program (text.now ++ rest.now) }
    ensures short { length lines.new.items
        ≤ length lines.old.items + length text.now + length rest.now + 9 }
{
    lines
        .try_extend_from_slice(program.name().as_bytes())
        .unwrap();
    lines.try_extend_from_slice(b": ").unwrap();
    lines.try_extend_from_slice(text).unwrap();
    lines.try_extend_from_slice(rest).unwrap();
    lines.push(b'\n');
}
