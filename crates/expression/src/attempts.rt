// The match of an expression at a place: that of its first alternative that matches there.
ghost use Rattle.std.specs.Prelude.{IfOk};
ghost use Rattle.ways.specs.Matched.{Keeps};
ghost use Rattle.expression.specs.Attempts.{IsMatchAt};

use crate::groups::region;
use matcher::answer::Region;
use ways::cursor::Cursor;
use ways::find::FindWay;
use ways::start::Alternatives;

pub(crate) fn match_at<W: FindWay>(
    way: &mut W,
    alternatives: Alternatives<'_>,
    from: &Cursor<'_>,
) -> Result<Option<Region>, W::Stop>
    ensures found { IfOk result (IsMatchAt (W.serves way.old) alternatives.entry from.now.line.now from.now.place) }
    ensures same { Keeps W.serves way.old way.new }
{
    for start in alternatives {
        // a match is large: where there is none, none is moved
        match way.find_way(&start, from) {
            Ok(None) => {}
            Ok(Some(matched)) => return Ok(Some(region(&start, from.place, &matched))),
            Err(stop) => return Err(stop),
        }
    }
    Ok(None)
}
