//! Heights, which never pass the limit.

ghost use Rattle.std.specs.Prelude.{◌≡◌, ◌+◌, ◌≤◌, ◌<◌, IfOk, false, nat_le};
ghost use Rattle.sml_phrases.specs.PhraseViews.{Gives};
ghost use Rattle.sml_phrases.specs.PhraseHeights.{low};

use crate::low::LIMIT;
use crate::phrase::Failure;

/// A height with so many levels more.
pub fn raised(height: u32, levels: u32) -> Result<u32, Failure>
    requires height { height ≤ 8000 }
    requires levels { levels ≤ 100 }
    ensures sum { Gives (λ h. h) low (height + levels) result }
    ensures within { IfOk result (λ h. h ≤ 4000) }
{
    let height = height + levels;
    if height > LIMIT {
        return Err(Failure::TooHigh);
    }
    Ok(height)
}
