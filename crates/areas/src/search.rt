// A search of a list of areas, one area at a time: whether they keep the rules, and how much of a run they hold. Areas that keep
// the rules ascend, so one pass is enough.
ghost use Rattle.promise.specs.Promise.{Decides};
ghost use Rattle.areas.specs.Search.{Begun, Past, Meets, Looked, Judges};

use super::{Access, Area, Run, Verdict};

// What is known once the areas looked at so far have kept the rules.
#[derive(Clone, Copy)]
pub(crate) struct Search {
    // the words of the image
    pub words: usize,
    // the run: its first word, and the one behind its last
    pub first: usize,
    pub end: usize,
    // the word behind the last area that was looked at
    pub from: usize,
    // each word of the run before this one is in some area
    pub reached: usize,
    // some area that was looked at is read-only and holds a word of the run
    pub read_only: bool,
}

impl Search {
    // A search that has looked at no area.
    pub(crate) fn begin(words: usize, run: Run) -> Self
        ensures { Begun words run result }
    {
        let first = run.first as usize;
        Search {
            words,
            first,
            end: first + run.count as usize,
            from: 0,
            reached: first,
            read_only: false,
        }
    }

    // Whether the area holds a word of the run.
    fn meets(self, area: Area) -> bool
        ensures { Decides (Meets area self.first self.end) result }
    {
        if self.end <= area.first as usize {
            return false;
        }
        if area.end() <= self.first {
            return false;
        }
        if area.count < 1 {
            return false;
        }
        self.first < self.end
    }

    // The first word from the one reached on that the area doesn't hold.
    fn past(self, area: Area) -> usize
        ensures { Past area self.reached result }
    {
        if self.reached < area.first as usize {
            self.reached
        } else {
            self.reached.max(area.end())
        }
    }

    // A look at the next area. `None`: it breaks a rule.
    pub(crate) fn look(mut self, area: Area) -> Option<Self>
        ensures { Looked self area result }
    {
        if !area.follows(self.from, self.words) {
            return None;
        }
        self.from = area.end();
        if self.meets(area) {
            self.reached = self.past(area);
            if area.access == Access::ReadOnly {
                self.read_only = true;
            }
        }
        Some(self)
    }

    // The verdict of a search that has looked at all areas.
    pub(crate) fn verdict(self) -> Verdict
        ensures { Judges self result }
    {
        if self.reached < self.end {
            Verdict::SomeInNoArea
        } else if self.read_only {
            Verdict::SomeReadOnly
        } else {
            Verdict::AllReadWrite
        }
    }
}
