//! The request in JSON that `item_tree_tool` reads.
use crate::commands::FAILED;
use crate::failure::Failure;
use crate::files::Room;
use crate::output::write_out;
use crate::report::Report;
use crate::sources::files_of;
use hir_input::{Crate, HirFileId};
use item_tree_db::Place;
use item_tree_request::request::show::{Show, ShowKind, TreeShow};
use item_tree_request::write::RequestOptions;
use itemtree_commands::source_request;
use itemtree_options::Asked;
use std::alloc::{AllocError, Global};

fn show_kind(word: &str) -> ShowKind {
    match word {
        "tree" => ShowKind::Tree,
        "imports" => ShowKind::Imports,
        _ => ShowKind::Page,
    }
}

/// A show of each of so many files.
fn push_shows(kind: ShowKind, count: usize, shows: &mut Vec<Show>) -> Result<(), AllocError> {
    let krate = Crate(0);
    for (file, _turn) in (0..u32::MAX).zip(0..count) {
        let place = Place::File(HirFileId(file));
        shows.push(Show::OfTree(TreeShow { kind, krate, place }))?;
    }
    Ok(())
}

fn shows_of(alloc: Global, words: &[&str], count: usize) -> Result<Vec<Show>, AllocError> {
    let mut shows = Vec::new(alloc);
    for word in words {
        push_shows(show_kind(word), count, &mut shows)?;
    }
    Ok(shows)
}

/// The texts of the files, and of those below folders; nothing if one of them cannot be read, which is told on standard
/// error.
fn texts_of(report: &mut Report<'_>, asked: &Asked<'_>) -> Result<Option<Vec<String>>, Failure> {
    let alloc = report.rt.alloc();
    let found = files_of(report.rt, asked)?;
    report.complain_of(&found.faults);
    let (mut room, mut texts) = (Room::new(alloc), Vec::new(alloc));
    for file in &found.files {
        if report.status == 0
            && let Some(text) = report.read(file, &mut room)
        {
            texts
                .push(String::from_str(alloc, text)?)
                .map_err(AllocError::from)?;
        }
    }
    Ok((report.status == 0).then_some(texts))
}

/// Writes the request. Where a file cannot be read, or the request cannot be written, nothing is.
pub(crate) fn write_request(
    rt: &HostRuntime,
    options: &RequestOptions,
    asked: &Asked<'_>,
) -> Result<u8, Failure> {
    let alloc = rt.alloc();
    let mut report = Report::new(rt, asked);
    let Some(texts) = texts_of(&mut report, asked)? else {
        return Ok(report.status);
    };
    let shows = shows_of(alloc, &asked.shows, texts.len())?;
    match source_request(alloc, &texts, options, &shows) {
        Ok(request) => {
            write_out(rt, &request)?;
            write_out(rt, "\n")?;
            Ok(0)
        }
        Err(fault) => {
            let _ = eprintln!(rt; "itemtree: {fault}");
            Ok(FAILED)
        }
    }
}
