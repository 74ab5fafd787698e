//! What holds of the types and definitions here. The functions do nothing.
ghost use Rattle.std.specs.Prelude.{◌≡◌, Decides, ℕ, List};
ghost use Rattle.line_index.specs.Points.{IsPoint, point_at, byte_at};

use crate::{LineEnds, Point, Position, Style, Units};

// `==` decides whether two values are one, and a copy is its source: the derives are held to it.
fn values()
    ensures positions { (a b : Position) → Decides (⟦<Position as PartialEq>⟧.eq a b) (a ≡ b) }
    ensures units { (a b : Units) → Decides (⟦<Units as PartialEq>⟧.eq a b) (a ≡ b) }
    ensures position { (source copy : Position) → ⟦<Position as Clone>⟧.is_clone source copy → copy
        ≡ source }
    ensures point { (source copy : Point) → ⟦<Point as Clone>⟧.is_clone source copy → copy ≡ source }
    ensures unit { (source copy : Units) → ⟦<Units as Clone>⟧.is_clone source copy → copy ≡ source }
    ensures ends { (source copy : LineEnds) → ⟦<LineEnds as Clone>⟧.is_clone source copy → copy ≡ source }
    ensures style { (source copy : Style) → ⟦<Style as Clone>⟧.is_clone source copy → copy ≡ source }
{}

// Back from where a byte stands is that byte, and what a line and a column lead to is a byte where one may stand.
#[tactic(auto, using(crate::proofs::Points::back, crate::proofs::Points::stands, crate::proofs::Points::clamped))]
fn points()
    ensures back { (style : Style) (text : List ℕ) (at : ℕ) → IsPoint style text at
        → byte_at style text (point_at style text at) ≡ at }
    ensures stands { (style : Style) (text : List ℕ) (p : Point) → IsPoint style text (byte_at style text p) }
    ensures clamped { (style : Style) (text : List ℕ) (p : Point)
        → byte_at style text (point_at style text (byte_at style text p)) ≡ byte_at style text p }
{}
