//! The places that edits touched since the index of names was refreshed.
ghost use Rattle.std.specs.Prelude.{List, ◌≡◌, ◌∷◌, [], Some, IfSome, OnErr, OnOk, map, Contains};
ghost use Rattle.item_tree_db.specs.declared.place.Place.{Place as PlaceView};
ghost use Rattle.item_tree_db.specs.Edits.{NamesPlaceOf, edit_view};
ghost use Rattle.decl_index.specs.Entries.{IsBehindAt, IsIndexOf};
ghost use Rattle.text_session.specs.Touched.{AreTouched, IsBehindBy, touched_keys};

use decl_index::DeclIndex;
use item_tree_db::{Edit, Place, Sources};
use std::alloc::{AllocError, Global};
use std::collections::BTreeSet;

/// Those places. They are not known where an edit gave options, which touch all places, or where memory ran out.
pub(crate) type Touched = Option<BTreeSet<Place>>;

// The place that an edit touches, if it touches one.
fn place_of(edit: &Edit) -> Option<Place>
    ensures { IfSome result (λ place. (places : List PlaceView)
        → Contains places place → NamesPlaceOf places (edit_view edit.now)) }
{
    match edit {
        Edit::SetFile { file, .. } | Edit::RemoveFile { file } => Some(Place::File(*file)),
        Edit::SetBlock { block, .. } | Edit::RemoveBlock { block } => Some(Place::Block(*block)),
        Edit::SetCfg { .. } => None,
    }
}

// Some places and those that an edit touches.
fn with_touched(mut places: BTreeSet<Place>, edit: &Edit) -> Touched
    ensures { AreTouched (edit_view edit.now ∷ []) (Some places.keys) (touched_keys result) }
{
    let place = place_of(edit)?;
    match places.insert(place) {
        Ok(_) => Some(places),
        Err(_) => None,
    }
}

/// Adds the places that edits touch.
#[tactic(auto, using(crate::proofs::Touching::touched_none))]
pub(crate) fn touch_all(touched: &mut Touched, edits: &[Edit])
    ensures { AreTouched (map edit_view edits.now) (touched_keys touched.old)
        (touched_keys touched.new) }
{
    for edit in edits {
        let Some(places) = touched.take() else {
            return;
        };
        *touched = with_touched(places, edit);
    }
}

fn refresh_index(
    alloc: Global,
    index: &mut DeclIndex,
    sources: &Sources,
    touched: &Touched,
) -> Result<usize, AllocError>
    requires { IsBehindBy index.old (touched_keys touched.now) sources.now }
    ensures index { OnOk result (IsIndexOf sources.now index.new) }
    ensures at { OnOk result ((places : List PlaceView)
        → IsBehindAt index.new places sources.now) }
    ensures err { OnErr result (index.new ≡ index.old) }
{
    match touched {
        Some(places) => index.refresh_among(alloc, sources, places),
        None => index.refresh(alloc, sources),
    }
}

/// Refreshes an index. It looks only at places that were touched, if they are known.
pub(crate) fn refresh(
    alloc: Global,
    index: &mut DeclIndex,
    sources: &Sources,
    touched: &mut Touched,
) -> Result<(), AllocError>
    requires { IsBehindBy index.old (touched_keys touched.old) sources.now }
    ensures index { OnOk result (IsIndexOf sources.now index.new) }
    ensures behind { IsBehindBy index.new (touched_keys touched.new) sources.now }
    ensures err { OnErr result (index.new ≡ index.old) }
{
    refresh_index(alloc, index, sources, touched)?;
    *touched = Some(BTreeSet::new(alloc));
    Ok(())
}
