//! Files that are not there, and scripts that are none.
use crate::lines::Lines;
use class_model::NoMemory;
use std::alloc::Global;

/// Explains that the script of this name is not there.
pub fn explain_absent(alloc: Global, name: &str) -> Result<String, NoMemory> {
    let mut lines = Lines::new(alloc);
    lines.put("pea: error: SCRIPT is not there: no file ");
    lines.name(name.as_bytes());
    lines.put(" is found from the working folder\n");
    lines.finish()
}

/// Explains that a folder has no file of this name.
pub fn explain_no_file(alloc: Global, folder: &str, name: &str) -> Result<String, NoMemory> {
    let mut lines = Lines::new(alloc);
    lines.put("pea: error: NAME is not there: no file ");
    lines.name(name.as_bytes());
    lines.put(" is found in the folder ");
    lines.name(folder.as_bytes());
    lines.put("\n");
    lines.finish()
}

/// Explains that a line of a script, counted from 1, is outside the grammar: the line, and how the action that it begins with is
/// written.
pub fn explain_line(alloc: Global, script: &[u8], number: u64) -> Result<String, NoMemory> {
    let line = line_at(script, number);
    let mut lines = Lines::new(alloc);
    lines.put("pea: error: line ");
    lines.number(number);
    lines.put(" of SCRIPT is no action of the library: ");
    lines.escaped(line);
    lines.put("\n");
    if line.ends_with(b"\r") {
        lines.put("  a line ends with \\n alone: the \\r before it belongs to the line\n");
    }
    lines.put(form_of(first_word(line)));
    lines.put(
        "  words have one space between, and a VALUE is i:N, l:N, f:BITS, d:BITS, null or r:K\n",
    );
    lines.finish()
}

// The line of a script with this number, counted from 1, and nothing where there is none.
fn line_at(script: &[u8], number: u64) -> &[u8] {
    let mut count: u64 = 0;
    for line in script.split(|byte| *byte == b'\n') {
        count = count.wrapping_add(1);
        if count == number {
            return line;
        }
    }
    &[]
}

fn first_word(line: &[u8]) -> &[u8] {
    line.split(|byte| *byte == b' ').next().unwrap_or(&[])
}

// How an action that begins with this word is written, or which words actions begin with.
fn form_of(word: &[u8]) -> &'static str {
    match word {
        b"call" => "  it is written: call CLASS NAME DESC VALUES\n",
        b"construct" => "  it is written: construct CLASS DESC VALUES\n",
        b"return" => "  it is written: return, or return VALUE\n",
        b"throw" => "  it is written: throw r:K\n",
        b"get" => "  it is written: get r:K INDEX\n",
        b"set" => "  it is written: set r:K INDEX VALUE\n",
        b"length" => "  it is written: length r:K\n",
        b"array" => "  it is written: array DESC LENGTH\n",
        b"new" => "  it is written: new CLASS NAMES\n",
        b"stop" => "  it is written: stop\n",
        _ => {
            "  actions begin with call, construct, return, throw, get, set, length, array, new or stop\n"
        }
    }
}
