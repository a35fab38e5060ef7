//! A reply, written.
ghost use Rattle.std.specs.{Prelude.{◌≡◌, ◌++◌, map, OnOk, OnErr}, List.flat_map};
ghost use Rattle.request_model.specs.Lines.{line_of};
ghost use Rattle.reply_text.specs.Replies.{text_behind, change_words, report_text, run_words, text_of};
ghost use Rattle.cost_certificate.specs.Text as certificate;
ghost use Rattle.reply_text.specs.Puts.{Puts};

use crate::NoMemory;
use crate::answer::{put_answer, put_change, put_run};
use crate::words::put_at;
use cost_certificate::put_cert;
use report_model::Pages;
use report_pages::{put_json, put_text};
use request_model::{Answer, NamedChange, Reply, RunLine};
use segment_cost::Cert;
use std::alloc::Global;

/// Appends the text of a reply: a line with `@`, the number of entries, and the words of the answer, and behind it the
/// lines of a list, of a certificate or of a report. The forms are those of docs/FORMATS.md.
///
/// Linear in the text; where there is no memory, `out` is as it was.
pub fn put_reply(alloc: Global, out: &mut Vec<u8>, reply: &Reply) -> Result<(), NoMemory>
    ensures ok { OnOk result (out.new.items ≡ out.old.items ++ text_of reply.now) }
    ensures err { OnErr result (out.new.items ≡ out.old.items) }
{
    let before = out.len();
    if let Err(fault) = put_text_of(alloc, out, reply) {
        out.truncate(before);
        return Err(fault);
    }
    Ok(())
}

// Appends the text of a reply, or a part of it where there is no memory.
fn put_text_of(alloc: Global, out: &mut Vec<u8>, reply: &Reply) -> Result<(), NoMemory>
    ensures { Puts result out.old.items out.new.items (text_of reply.now) }
{
    put_at(alloc, out, reply.step)?;
    put_answer(alloc, out, &reply.answer)?;
    out.push(b'\n')?;
    put_lines(alloc, out, &reply.answer)
}

// Appends the lines behind the first.
fn put_lines(alloc: Global, out: &mut Vec<u8>, answer: &Answer) -> Result<(), NoMemory>
    ensures { Puts result out.old.items out.new.items (text_behind answer.now) }
{
    match answer {
        Answer::Changes { metric, items, .. } => put_changes(
            alloc,
            out,
            metric.as_str().as_bytes(),
            items.as_slice(),
        ),
        Answer::Verified { cert, .. } => put_whole_cert(alloc, out, cert.get()),
        Answer::Runs { runs } => put_runs(alloc, out, runs.as_slice()),
        Answer::Report { pages } => put_pages(alloc, out, pages.get()),
        _ => Ok(()),
    }
}

// Appends the lines of a certificate.
fn put_whole_cert(alloc: Global, out: &mut Vec<u8>, cert: &Cert) -> Result<(), NoMemory>
    ensures { Puts result out.old.items out.new.items (certificate.text_of cert.now) }
{
    put_cert(alloc, out, cert)
}

// Appends the lines of changes in this metric.
fn put_changes(
    alloc: Global,
    out: &mut Vec<u8>,
    metric: &[u8],
    changes: &[NamedChange],
) -> Result<(), NoMemory>
    ensures { Puts result out.old.items out.new.items
        (flat_map line_of (map (change_words metric.now) changes.now)) }
{
    for change in changes {
        put_change(alloc, out, metric, change)?;
    }
    Ok(())
}

// Appends the lines of a report.
fn put_pages(alloc: Global, out: &mut Vec<u8>, pages: &Pages) -> Result<(), NoMemory>
    ensures { Puts result out.old.items out.new.items (report_text pages.now) }
{
    if pages.json {
        return put_json(alloc, out, pages);
    }
    put_text(alloc, out, pages)
}

// Appends the lines of runs.
fn put_runs(alloc: Global, out: &mut Vec<u8>, runs: &[RunLine]) -> Result<(), NoMemory>
    ensures { Puts result out.old.items out.new.items (flat_map line_of (map run_words runs.now)) }
{
    for line in runs {
        put_run(alloc, out, line)?;
    }
    Ok(())
}
