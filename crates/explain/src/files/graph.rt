// Programs as graphs, in the language of Graphviz: a node for each piece of a program that is run from its first instruction to its last, and an edge
// for each way on. What is quoted are names of programs and words of the assembler, in which no sign asks for a backslash.

ghost use Rattle.std.specs.Prelude.{◌≡◌, ◌++◌, is_ok, is_some, option_map, IfOk, OnOk};
ghost use Rattle.std.specs.String.{string_bytes};
ghost use Rattle.text.specs.Lines.{lines_of};
ghost use Rattle.maps.specs.Shapes.{AreLimits};
ghost use Rattle.loader.specs.Grammar.{line_meaning};
ghost use Rattle.loader.specs.LineShown.{program_of};
ghost use Rattle.loader.specs.ProgramFiles.{files_of};
ghost use Rattle.explain.specs.Explanation.{Writes};
ghost use Rattle.explain.specs.Graph.{asked_program, no_cluster, DrawsLine, DrawsLines, DrawsManifest, DrawsProgram, IsCluster};
ghost use Rattle.explain.specs.Manifest.{program_in};

use crate::files::{decoded, text_of};
use crate::programs::{jump_target, successor};
use crate::sentences::Word::{Count, Number, Text};
use crate::sentences::{Written, put, put_all};
use asm::disassemble;
use insn::{Edge, Form, Insn};
use itoa::Buffer;
use loader::{Line, ProgramLine, read_line};
use maps::MapLimits;
use std::alloc::{AllocError, Global};
use std::fmt::Write;
use text::{NumberedLines, spaced_hex};

// A node where the program has no instruction, an edge to the next instruction, and an edge of a jump.
const MISSING: &str = "    \"{0}.{2}\" [shape=plaintext, label=\"no instruction at slot {2}\"];\n";

const FALL: &str = "    \"{0}.{1}\" -> \"{0}.{2}\";\n";

const JUMP: &str = "    \"{0}.{1}\" -> \"{0}.{2}\" [label=\"jump\"];\n";

// What is drawn at a slot.
#[derive(Clone, Copy)]
struct Spot {
    // Whether a node begins there.
    leads: bool,
    // What begins there: the second half of a wide instruction begins nothing.
    form: Option<Form>,
}

// The slots of a program. A node begins at slot 0, where a jump leads, and behind a jump and an exit.
fn spots_of(alloc: Global, program: &[Insn]) -> Result<Vec<Spot>, AllocError> {
    let mut spots = Vec::new(alloc);
    let mut leads = true;
    for insn in program {
        let form = Some(insn.form());
        spots.push(Spot { leads, form })?;
        leads = insn.form().displacement().is_some() || !insn.form().falls_through();
        if insn.slot_count() == 2 {
            let (leads, form) = (false, None);
            spots.push(Spot { leads, form })?;
        }
    }
    for slot in 0..spots.len() {
        let form = spots.get(slot).and_then(|spot| spot.form);
        let to = form.and_then(|form| successor(form, slot, Edge::Jump));
        if let Some(spot) = to.and_then(|to| spots.get_mut(to)) {
            spot.leads = true;
        }
    }
    Ok(spots)
}

// A program that is drawn.
#[derive(Drop)]
struct Drawing<'a> {
    name: &'a str,
    spots: Vec<Spot>,
}

impl Drawing<'_> {
    // Adds a text in whose gaps stand the name, the slot of a node, and that to which an edge leads.
    fn put(&self, out: &mut String, text: &str, node: usize, to: i64) -> Written {
        put(out, text, &[Text(self.name), Count(node), Number(to)])
    }

    // Adds an edge from a node, unless it leads to the next instruction of the same node, and a node where none begins.
    fn put_edge(&self, out: &mut String, node: usize, to: i64, text: &str) -> Written {
        let spot = usize::try_from(to).ok().and_then(|to| self.spots.get(to));
        match spot {
            Some(spot) if spot.form.is_some() && !spot.leads => return Ok(()),
            Some(spot) if spot.form.is_some() => {}
            _ => self.put(out, MISSING, node, to)?,
        }
        self.put(out, text, node, to)
    }

    // Adds the nodes, each with its instructions in the words of the assembler.
    fn put_nodes(&self, out: &mut String, words: &str) -> Written {
        let mut lines = words.lines();
        for (slot, spot) in self.spots.iter().enumerate() {
            if spot.form.is_none() {
                continue;
            }
            if spot.leads {
                out.push_str(if slot == 0 { "    " } else { "\"];\n    " })?;
                self.put(out, "\"{0}.{1}\" [label=\"", slot, 0)?;
            }
            write!(out, "{slot:>4}  {}\\l", lines.next().unwrap_or(""))?;
        }
        out.push_str("\"];\n")
    }

    // Adds the edges between them.
    fn put_edges(&self, out: &mut String) -> Written {
        let mut node = 0usize;
        for (slot, spot) in self.spots.iter().enumerate() {
            let Some(form) = spot.form else {
                continue;
            };
            if spot.leads {
                node = slot;
            }
            if let Some(to) = successor(form, slot, Edge::Fall) {
                self.put_edge(out, node, i64::try_from(to).unwrap_or(i64::MAX), FALL)?;
            }
            if let Some(to) = jump_target(form, slot) {
                self.put_edge(out, node, to, JUMP)?;
            }
        }
        Ok(())
    }
}

// What is in the cluster of a program.
fn inside(alloc: Global, name: &str, program: &[Insn]) -> Result<String, AllocError> {
    let spots = spots_of(alloc, program)?;
    let drawing = Drawing { name, spots };
    let words = disassemble(alloc, program)?;
    let mut out = String::new(alloc);
    drawing.put_nodes(&mut out, words.as_str())?;
    drawing.put_edges(&mut out)?;
    Ok(out)
}

// Adds the graph of a program.
fn put_program(out: &mut String, name: &str, program: &[Insn]) -> Written
    ensures { OnOk result (Writes (IsCluster name.now) out.old out.new) }
{
    let inside = inside(*out.allocator(), name, program)?;
    let head = "  subgraph \"cluster_";
    put_all(
        out,
        &[
            head,
            name,
            "\" {\n    label=\"",
            name,
            "\";\n",
            inside.as_str(),
            "  }\n",
        ],
    )
}

// The program that the file of this name spells, if it spells one.
fn program_in(
    alloc: Global,
    files: &[(&str, &str)],
    name: &str,
) -> Result<Option<Vec<Insn>>, AllocError>
    ensures { IfOk result (λ o. is_some o ≡ is_ok (program_in (files_of files.now) name.now)) }
{
    let Some(text) = text_of(files, name) else {
        return Ok(None);
    };
    let Some(bytes) = spaced_hex(alloc, text)? else {
        return Ok(None);
    };
    decoded(alloc, &bytes)
}

// Adds a remark that the program of a line has nothing to draw.
fn put_remark(out: &mut String, number: u32, name: &str) -> Written
    ensures { OnOk result (string_bytes out.new ≡ string_bytes out.old ++ no_cluster number name.now) }
{
    let mut digits = Buffer::new();
    let digits = digits.format(number);
    put_all(
        out,
        &[
            "  // line ",
            digits,
            ": ",
            name,
            " has no instructions to draw\n",
        ],
    )
}

// Adds the graph of the program of a line, or a remark that it has none.
fn put_named(
    out: &mut String,
    number: u32,
    line: ProgramLine<'_>,
    files: &[(&str, &str)],
) -> Written
    ensures { OnOk result (Writes (DrawsProgram (files_of files.now) number (program_of line.entry)) out.old out.new) }
{
    let spelled = program_in(*out.allocator(), files, line.file)?;
    match spelled {
        Some(program) => put_program(out, line.name, &program),
        None => put_remark(out, number, line.name),
    }
}

// Adds what is drawn of a line, if it has a program that is asked for.
fn put_line(
    out: &mut String,
    number: u32,
    line: Option<ProgramLine<'_>>,
    files: &[(&str, &str)],
) -> Written
    ensures { OnOk result (Writes (DrawsLine (files_of files.now) number (option_map program_of line.entry)) out.old out.new) }
{
    match line {
        Some(program) => put_named(out, number, program, files),
        None => Ok(()),
    }
}

// The program of a line, if it is asked for.
fn asked_program<'a>(
    limits: &MapLimits,
    line: &'a str,
    name: Option<&str>,
) -> Option<ProgramLine<'a>>
    requires { AreLimits limits.now }
    ensures { option_map program_of result ≡ asked_program (option_map (λ n. n.now) name.entry) (line_meaning limits.now line.now) }
{
    match (read_line(limits, line), name) {
        (Some(Line::Program(program)), None) => Some(program),
        (Some(Line::Program(program)), Some(name)) if program.name == name => Some(program),
        _ => None,
    }
}

// Adds what is drawn of the lines of a manifest.
fn put_lines(
    out: &mut String,
    limits: &MapLimits,
    manifest: &str,
    name: Option<&str>,
    files: &[(&str, &str)],
) -> Written
    requires { AreLimits limits.now }
    ensures { OnOk result (Writes (DrawsLines limits.now (files_of files.now) (option_map (λ n. n.now) name.entry) 1 (lines_of manifest.now)) out.old out.new) }
{
    let mut lines = NumberedLines::new(manifest);
    while let Some((number, line)) = lines.take_line() {
        put_line(out, number, asked_program(limits, line, name), files)?;
    }
    Ok(())
}

/// The programs of a manifest with these files as a graph in the language of Graphviz, by limits of its maps, each in a cluster of its own; where a
/// name is given, the program of this name alone. Whether the verifier accepts them makes no difference.
///
/// # Errors
///
/// The system has no memory left.
pub fn graph_manifest(
    alloc: Global,
    limits: &MapLimits,
    manifest: &str,
    name: Option<&str>,
    files: &[(&str, &str)],
) -> Result<String, AllocError>
    requires limits { AreLimits limits.now }
    // Of each line that these limits read as that of a program its cluster, or the remark that its file spells no program; in the order of the lines.
    ensures drawn { IfOk result (λ s. DrawsManifest limits.now (files_of files.now) (option_map (λ n. n.now) name.entry) manifest.now (string_bytes s)) }
{
    let mut out = String::new(alloc);
    out.push_str("digraph programs {\n  node [shape=box, fontname=\"monospace\"];\n")?;
    put_lines(&mut out, limits, manifest, name, files)?;
    out.push_str("}\n")?;
    Ok(out)
}
