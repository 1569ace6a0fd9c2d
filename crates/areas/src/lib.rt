// The areas of a station: which words of the image are addressable, and which of them may be written.
// No public function has a `requires`. The contracts cite specs/Calls.antt and specs/Words.antt.
#![tactic(auto)]

mod search;

ghost use Rattle.std.specs.Prelude.{◌≡◌};
ghost use Rattle.promise.specs.Promise.{Decides};
ghost use Rattle.areas.specs.Calls.{Survey};
ghost use Rattle.areas.specs.Following.{Follows};
ghost use Rattle.areas.specs.Holding.{end_of};
ghost use Rattle.areas.specs.Words.{AccessNamed, SurveyWords};

use search::Search;

// The most areas that a list may have.
pub const MOST_AREAS: usize = 16;

// The entries of a list by value: one more than a list may have, so that a list that is too long can be given, and is refused.
pub const LIST_ENTRIES: usize = 17;

// The words of an area in a list of words.
const AREA_WORDS: usize = 3;

#[derive(Clone, Copy, Debug, PartialEq, Eq)]
pub enum Access {
    ReadOnly,
    ReadWrite,
}

// A word that stands for no access.
#[derive(Clone, Copy, Debug, PartialEq, Eq)]
pub struct UnknownAccess(pub u16);

impl TryFrom<u16> for Access {
    type Error = UnknownAccess;

    ghost try_from_gives = { AccessNamed };

    fn try_from(word: u16) -> Result<Self, UnknownAccess> {
        match word {
            0 => Ok(Access::ReadOnly),
            1 => Ok(Access::ReadWrite),
            _ => Err(UnknownAccess(word)),
        }
    }
}

// `count` words from word `first` on.
#[derive(Clone, Copy, Debug, PartialEq, Eq)]
pub struct Area {
    pub first: u16,
    pub count: u16,
    pub access: Access,
}

impl Area {
    // The word behind the last one of the area.
    fn end(self) -> usize
        ensures { result ≡ end_of self }
    {
        self.first as usize + self.count as usize
    }

    // Whether the area has a word, starts no earlier than word `from`, and ends inside an image of `words` words.
    fn follows(self, from: usize, words: usize) -> bool
        ensures { Decides (Follows words from self) result }
    {
        1 <= self.count && from <= self.first as usize && self.end() <= words
    }
}

// A list of areas by value: the first `len` of the entries.
#[derive(Clone, Copy, Debug, PartialEq, Eq)]
pub struct AreaList {
    pub entries: [Area; LIST_ENTRIES],
    pub len: usize,
}

// `count` words from word `first` on, of which a list is asked.
#[derive(Clone, Copy, Debug, PartialEq, Eq)]
pub struct Run {
    pub first: u16,
    pub count: u16,
}

// What is found of the words of a run.
#[derive(Clone, Copy, Debug, PartialEq, Eq)]
pub enum Verdict {
    // Some word lies in no area.
    SomeInNoArea,
    // None does, but some word is of a read-only area: the run may be read, but not written.
    SomeReadOnly,
    // Each word is of read-write areas alone.
    AllReadWrite,
}

// The list's verdict on the run, if the list keeps the rules for an image of `words` words: it has at most 16 areas, each has a
// word, they ascend, don't overlap, and end inside the image. `None`: it breaks a rule. A run of no words is all read-write.
pub fn survey(areas: &[Area], words: usize, run: Run) -> Option<Verdict>
    ensures { Survey areas.now words run result }
{
    if MOST_AREAS < areas.len() {
        return None;
    }
    let mut search = Search::begin(words, run);
    for &area in areas {
        search = search.look(area)?;
    }
    Some(search.verdict())
}

// The same for a list that is lent as words, three for each area: first, count, access (0 read-only, 1 read-write). Words that are
// those of no list break a rule.
pub fn survey_words(area_words: &[u16], words: usize, run: Run) -> Option<Verdict>
    ensures { SurveyWords area_words.now words run result }
{
    if area_words.len() % AREA_WORDS != 0 || MOST_AREAS < area_words.len() / AREA_WORDS {
        return None;
    }
    let mut search = Search::begin(words, run);
    for entry in area_words.chunks_exact(AREA_WORDS) {
        let area = Area {
            first: entry[0],
            count: entry[1],
            access: Access::try_from(entry[2]).ok()?,
        };
        search = search.look(area)?;
    }
    Some(search.verdict())
}
