//! Writing verdicts and edges.

ghost use Rattle.std.specs.Prelude.{◌++◌, codes, decimal};
ghost use Rattle.devices.specs.Clauses.Writing.{Wrote};
ghost use Rattle.adya_line.specs.Meaning.Spelling.{version_text};
ghost use Rattle.adya_dsg.specs.Mirror.{kind_of, edge_of};
ghost use Rattle.adya_audit.specs.Computing.Verdicts.{plain_verdict};
ghost use Rattle.adya_audit.specs.Clauses.Output.{text_name, rule_name, kind_name, edge_text, verdict_text, verdict_line};

use crate::{Edge, Kind, Text, Verdict, WriteFault};
use adya_line::write_version;
use adya_values::{Rule, Version};
use devices::{Watched, put, put_number};
use std::io;
use std::io::Write;

/// Writes the line of the verdict. `WriteFault` only if the writer fails or had failed before.
pub fn write_verdict<W: Write>(verdict: &Verdict, out: &mut Watched<W>) -> Result<(), WriteFault>
    ensures { Wrote W.contents out.old out.new (verdict_line (plain_verdict verdict.now)) result }
{
    put_verdict_line(verdict, out).map_err(|_| WriteFault)
}

fn put_verdict_line<W: Write>(verdict: &Verdict, out: &mut Watched<W>) -> io::Result<()>
    ensures { Wrote W.contents out.old out.new (verdict_line (plain_verdict verdict.now)) result }
{
    put_verdict(verdict, out)?;
    put(b"\n", out)
}

fn put_verdict<W: Write>(verdict: &Verdict, out: &mut Watched<W>) -> io::Result<()>
    ensures { Wrote W.contents out.old out.new (verdict_text (plain_verdict verdict.now)) result }
{
    match verdict {
        Verdict::Yes => put(b"yes", out),
        Verdict::Syntax { text, line } => put_syntax(b"no 1 syntax ", *text, *line, out),
        Verdict::Malformed { line, rule } => put_malformed(b"no 2 malformed ", *line, *rule, out),
        Verdict::AbortedRead { line, version } => put_read(
            b"no 3 aborted-read ",
            *line,
            version,
            out,
        ),
        Verdict::IntermediateRead { line, version } => put_read(
            b"no 4 intermediate-read ",
            *line,
            version,
            out,
        ),
        Verdict::NotTheCommitted => put(b"no 5 not-the-committed", out),
        Verdict::Backward { edge } => put_backward(edge, out),
    }
}

fn put_syntax<W: Write>(
    kind: &[u8],
    text: Text,
    line: usize,
    out: &mut Watched<W>,
) -> io::Result<()>
    ensures { Wrote W.contents out.old out.new
        (kind.now ++ text_name text ++ codes " " ++ decimal line) result }
{
    put(kind, out)?;
    put_text_name(text, out)?;
    put(b" ", out)?;
    put_number(line as u64, out)
}

fn put_malformed<W: Write>(
    kind: &[u8],
    line: usize,
    rule: Rule,
    out: &mut Watched<W>,
) -> io::Result<()>
    ensures { Wrote W.contents out.old out.new
        (kind.now ++ decimal line ++ codes " " ++ rule_name rule) result }
{
    put(kind, out)?;
    put_number(line as u64, out)?;
    put(b" ", out)?;
    put_rule(rule, out)
}

fn put_read<W: Write>(
    kind: &[u8],
    line: usize,
    version: &Version,
    out: &mut Watched<W>,
) -> io::Result<()>
    ensures { Wrote W.contents out.old out.new
        (kind.now ++ decimal line ++ codes " " ++ version_text version.now) result }
{
    put(kind, out)?;
    put_number(line as u64, out)?;
    put(b" ", out)?;
    write_version(version, out)
}

fn put_backward<W: Write>(edge: &Edge, out: &mut Watched<W>) -> io::Result<()>
    ensures { Wrote W.contents out.old out.new (codes "no 6 backward " ++ edge_text (edge_of edge.now)) result }
{
    put(b"no 6 backward ", out)?;
    put_edge(edge, out)
}

/// Writes the edge as `KIND K FROM TO`.
#[tactic(auto, unfolding(crate::specs::Clauses::Output::edge_text))]
pub(crate) fn put_edge<W: Write>(edge: &Edge, out: &mut Watched<W>) -> io::Result<()>
    ensures { Wrote W.contents out.old out.new (edge_text (edge_of edge.now)) result }
{
    put_kind(edge.kind, out)?;
    put(b" ", out)?;
    put(edge.key.bytes(), out)?;
    put(b" ", out)?;
    put_ends(edge, out)
}

fn put_ends<W: Write>(edge: &Edge, out: &mut Watched<W>) -> io::Result<()>
    ensures { Wrote W.contents out.old out.new
        (decimal (edge_of edge.now).from ++ codes " " ++ decimal (edge_of edge.now).to) result }
{
    put_number(u64::from(edge.from.get()), out)?;
    put(b" ", out)?;
    put_number(u64::from(edge.to.get()), out)
}

fn put_text_name<W: Write>(text: Text, out: &mut Watched<W>) -> io::Result<()>
    ensures { Wrote W.contents out.old out.new (text_name text) result }
{
    match text {
        Text::History => put(b"history", out),
        Text::Serial => put(b"serial", out),
    }
}

fn put_kind<W: Write>(kind: Kind, out: &mut Watched<W>) -> io::Result<()>
    ensures { Wrote W.contents out.old out.new (kind_name (kind_of kind)) result }
{
    match kind {
        Kind::Ww => put(b"ww", out),
        Kind::Wr => put(b"wr", out),
        Kind::Rw => put(b"rw", out),
    }
}

fn put_rule<W: Write>(rule: Rule, out: &mut Watched<W>) -> io::Result<()>
    ensures { Wrote W.contents out.old out.new (rule_name rule) result }
{
    match rule {
        Rule::M1 => put(b"M1", out),
        Rule::M2 => put(b"M2", out),
        Rule::M3 => put(b"M3", out),
        Rule::M4 => put(b"M4", out),
        Rule::M5 => put(b"M5", out),
        Rule::M6 => put(b"M6", out),
        Rule::M7 => put(b"M7", out),
        Rule::M8 => put(b"M8", out),
    }
}
