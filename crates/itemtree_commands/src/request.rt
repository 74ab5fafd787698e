//! The request over Rust texts, as the JSON that `item_tree_tool` reads.
ghost use Rattle.std.specs.Prelude.{◌≡◌, IfErr, IfOk, map, string_bytes};
ghost use Rattle.hir_input.specs.Syntax.{syntax_view};
ghost use Rattle.itemtree_commands.specs.RequestTexts.{AreRead, IsAsked, AreTextsUnwritten};

use hir_input::EditionYear;
use hir_input::ast::Syntax;
use item_tree_request::request::show::Show;
use item_tree_request::write::{RequestFault, RequestOptions, request_text};
use rust_items::read_source_file;
use std::alloc::{AllocError, Global};

/// What is read of each text of an edition.
fn syntaxes(
    alloc: Global,
    texts: &[String],
    edition: EditionYear,
) -> Result<Vec<Syntax>, AllocError>
    ensures { IfOk result (λ files. AreRead edition (map string_bytes texts.now)
        (map syntax_view files.items)) }
{
    let mut files = Vec::new(alloc);
    for text in texts {
        let file = read_source_file(alloc, text, edition)?;
        files.push(file.syntax)?;
    }
    Ok(files)
}

/// The request of one crate, whose root is file 0, that sets each file to what is read of its text in the options'
/// edition, numbered from 0, with these shows. The JSON text is read as exactly this request.
///
/// # Errors
///
/// Those of `request_text`, for what is read.
pub fn source_request(
    alloc: Global,
    texts: &[String],
    options: &RequestOptions,
    shows: &[Show],
) -> Result<String, RequestFault>
    ensures asked { let asked = IsAsked options.now (map string_bytes texts.now) shows.now in
        IfOk result (λ out. asked (string_bytes out)) }
    ensures refused { IfErr result
        (AreTextsUnwritten options.now (map string_bytes texts.now) shows.now) }
{
    let files = syntaxes(alloc, texts, options.edition.year)?;
    request_text(alloc, options, &files, shows)
}
