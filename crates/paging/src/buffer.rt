ghost use Rattle.std.specs.Prelude.{◌≡◌, ℕ, Bool, true, replicate, is_some, Some, None, slice_set};
ghost use Rattle.paging.specs.Frames.{changed, changing, enters, looked, named, page_with, translated};
ghost use Rattle.paging.specs.Places.{Sound, after_change, after_look, kept as kept_in, place_of, places as place_count};

use crate::fault::MapFault;
use crate::map::{ChangeableMap, Map, block_in};
use crate::mapped::MappedPage;
use crate::straight::StraightMap;
use crate::table::FlatTable;
use base::block::{Frame, Page, PhysicalBlock, Process, VirtualBlock};

const PLACES: usize = 16;

// A translation buffer over any map: its places keep frames that look-ups found.
#[derive(Drop)]
pub struct TranslationBuffer<M> {
    below: M,
    places: [Option<MappedPage>; PLACES],
}

// The place of a page.
fn place_of(page: Page) -> usize
    ensures { result ≡ place_of page }
{
    usize::from(page.0) % PLACES
}

impl<M: Map> TranslationBuffer<M> {
    // A buffer with empty places.
    pub fn new(below: M) -> TranslationBuffer<M>
        ensures sound { M.Map.sound below → Sound M.Map result }
        ensures same { result.below ≡ below }
        ensures empty { result.places ≡ replicate place_count None }
    {
        TranslationBuffer {
            below,
            places: [None; PLACES],
        }
    }

    // The map below.
    pub fn into_below(self) -> M
        ensures { result ≡ self.below }
    {
        let TranslationBuffer { below, places: _ } = self;
        below
    }

    // The frame that the page's place gives.
    fn kept_frame(&self, process: Process, page: Page) -> Option<Frame>
        ensures { result ≡ kept_in self.now.places process page }
    {
        self.places[place_of(page)]
            .filter(|kept| kept.process == process && kept.page == page)
            .map(|kept| kept.frame)
    }

    fn put(&mut self, page: Page, place: Option<MappedPage>)
        ensures same { self.new.below ≡ self.old.below }
        ensures places { self.new.places ≡ slice_set self.old.places (place_of page) place }
    {
        self.places[place_of(page)] = place;
    }
}

impl<M: Map> Map for TranslationBuffer<M> {
    ghost frame = { λ s. M.Map.frame s.below };

    ghost sound = { Sound M.Map };

    ghost within = { λ s h. M.Map.within s.below h.0 };

    fn frame_of(&mut self, process: Process, page: Page) -> Result<Frame, MapFault>
        ensures kept { Sound M.Map self.old → Sound M.Map self.new }
        ensures answer { Sound M.Map self.old → result ≡ looked (M.Map.frame self.old.below) process page }
        ensures frames { Sound M.Map self.old → M.Map.frame self.new.below ≡ M.Map.frame self.old.below }
        ensures places { self.new.places ≡ after_look (kept_in self.old.places process page) self.old.places process page result }
        ensures untouched { is_some (kept_in self.old.places process page) ≡ true → self.new.below ≡ self.old.below }
    {
        if let Some(frame) = self.kept_frame(process, page) {
            return Ok(frame);
        }
        let frame = self.below.frame_of(process, page)?;
        self.put(
            page,
            Some(MappedPage {
                process,
                page,
                frame,
            }),
        );
        Ok(frame)
    }

    // Besides what the trait says: the places, and that the map below is untouched where a place gives the frame.
    fn look_up(&mut self, process: Process, block: VirtualBlock) -> Result<PhysicalBlock, MapFault>
        ensures kept { Sound M.Map self.old → Sound M.Map self.new }
        ensures answer { Sound M.Map self.old → result ≡ translated (M.Map.frame self.old.below) process block }
        ensures frames { Sound M.Map self.old → M.Map.frame self.new.below ≡ M.Map.frame self.old.below }
        ensures places { Sound M.Map self.old → self.new.places ≡ after_look (kept_in self.old.places process (page_with block)) self.old.places process (page_with block) (looked (M.Map.frame self.old.below) process (page_with block)) }
        ensures untouched { is_some (kept_in self.old.places process (page_with block)) ≡ true → self.new.below ≡ self.old.below }
    {
        let frame = self.frame_of(process, block.page())?;
        Ok(block_in(frame, block))
    }
}

impl<M: ChangeableMap> ChangeableMap for TranslationBuffer<M> {
    fn enter(&mut self, process: Process, page: Page, to: Frame) -> Result<(), MapFault>
        ensures kept { Sound M.Map self.old → Sound M.Map self.new }
        ensures answer { Sound M.Map self.old → result ≡ changing (enters process page to) page }
        ensures frames { Sound M.Map self.old → M.Map.frame self.new.below ≡ changed (enters process page to) (M.Map.frame self.old.below) process.0 page.0 (Some to.0) }
        ensures places { self.new.places ≡ after_change self.old.places page result }
    {
        self.below.enter(process, page, to)?;
        self.put(page, None);
        Ok(())
    }

    fn erase(&mut self, process: Process, page: Page) -> Result<(), MapFault>
        ensures kept { Sound M.Map self.old → Sound M.Map self.new }
        ensures answer { Sound M.Map self.old → result ≡ changing (named process.0 page.0) page }
        ensures frames { Sound M.Map self.old → M.Map.frame self.new.below ≡ changed (named process.0 page.0) (M.Map.frame self.old.below) process.0 page.0 None }
        ensures places { self.new.places ≡ after_change self.old.places page result }
    {
        self.below.erase(process, page)?;
        self.put(page, None);
        Ok(())
    }
}

// Asks that a map be sound.
fn asks_sound<M: Map>(map: &M)
    requires { M.Map.sound map.now }
{}

// Each map as it is made is sound, and so is a buffer over it.
fn made_sound() {
    asks_sound(&StraightMap);
    asks_sound(&FlatTable::new());
    asks_sound(&TranslationBuffer::new(FlatTable::new()));
    asks_sound(&TranslationBuffer::new(TranslationBuffer::new(FlatTable::new())));
}
