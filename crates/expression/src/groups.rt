// Where the groups of a match lie.
ghost use Rattle.std.specs.Prelude.{◌≡◌, ℕ, ◌+◌, ◌<◌, ◌^◌, List, length};
ghost use Rattle.ways.specs.Groups.{put as put_in, opening, closing};
ghost use Rattle.expression.specs.Layout.{Regional, laid_by};

use arrayvec::ArrayVec;
use grammar::items::Item;
use matcher::answer::{Region, Span};
use ways::find::Matched;
use ways::start::Start;

// The groups that are laid so far.
#[derive(Drop)]
struct Laying {
    // how many brackets were opened
    opened: usize,
    // the numbers of those that are open, the innermost last
    inner: ArrayVec<usize, 15>,
    region: Region,
}

impl Laying {
    // Group `k` lies there. A number that no group has changes nothing.
    fn put(&mut self, k: usize, begin: usize, end: usize)
        ensures region { self.new.region ≡ put_in k begin end self.old.region }
        ensures same { (self.new.opened ≡ self.old.opened) × (self.new.inner ≡ self.old.inner) }
    {
        let groups = self.region.groups.as_mut_slice();
        if k < groups.len() {
            groups[k] = Some(Span { begin, end });
        }
    }

    // A bracket opens at the place. No expression has more than 15 pairs, so there is room for its number.
    fn open(&mut self, place: usize)
        requires { self.old.opened < 2 ^ 63 }
        ensures opened { self.new.opened ≡ self.old.opened + 1 }
        ensures laid { length self.old.inner.items < 15 → laid_by self.new ≡ opening place (laid_by self.old) }
    {
        self.opened += 1;
        self.put(self.opened, place, place);
        let _ = self.inner.try_push(self.opened);
    }

    // The innermost open bracket closes at the place.
    fn close(&mut self, place: usize)
        ensures opened { self.new.opened ≡ self.old.opened }
        ensures laid { laid_by self.new ≡ closing place (laid_by self.old) }
    {
        if let Some(k) = self.inner.pop() {
            let begin = self.region.group(k).map_or(0, |span| span.begin);
            self.put(k, begin, place);
        }
    }
}

// The region of a match that begins at `begin`, of the alternative that begins at `start`.
pub(crate) fn region(start: &Start<'_>, begin: usize, matched: &Matched) -> Region
    ensures { (e : List ℕ) → Regional e start.now begin matched.now result }
{
    let mut laying = Laying {
        opened: start.opened,
        inner: ArrayVec::new(),
        region: Region { groups: [None; 16] },
    };
    let mut places = matched.brackets.iter().copied();
    for item in start.items {
        match item {
            Item::Bar => break,
            Item::Open => laying.open(places.next().unwrap_or(0)),
            Item::Close => laying.close(places.next().unwrap_or(0)),
            Item::Take(_, _) | Item::Start | Item::End | Item::Never => {}
        }
    }
    laying.put(0, begin, matched.end);
    laying.region
}
