//! A log that only grows, as the history of a book (`logbook`). It exists for contracts alone: what runs is one word,
//! which counts.
//!
//! Whoever has a [`History`] adds to it, and nobody else can. Fronts of it are handed out, and each stays one for good:
//! that stands on [`History::covers`], and what is added, on [`History::push`].

ghost use Rattle.std.specs.Prelude.{◌≡◌, ◌+◌, ◌-◌, ◌^◌, ◌<◌, ◌≤◌, [], ◌∷◌, ◌++◌, length};
ghost use Rattle.std.specs.Prelude.{IfSome, MatchBool, if◌then◌else◌};
ghost use mathlib.Core.List.{IsPrefix};
ghost use Rattle.logbook.specs.Pages.{may_write};
ghost use Rattle.yp_board.specs.Views.{IsFront};
ghost use Rattle.yp_board.specs.inside.Histories.{head_of, IsNext};

use logbook::{Gain, Offer, Pen, Plain, Play, Rule, Seen, Start, Word};
use std::marker::{Brand, Model, PhantomData};
use yp_version::Version;

/// How many words a book has that was just opened.
const FIRST_WORDS: u64 = 2;

/// The most entries of a log.
const MOST: u64 = 1 << 63;

/// What a log has entries of.
pub trait Entry {
    /// What a step asks for that adds none.
    ghost blank: { Self };
}

impl Entry for Version {
    ghost use Rattle.std.specs.Prelude.{[]};
    ghost use Rattle.yp_version.specs.Versions.{unmarked};

    ghost blank = { unmarked 0 [] [] };
}

/// Which log it is. Each call of a program that opens one picks it.
pub trait Naming {
    ghost use Rattle.logbook.specs.Pages.{Book};

    ghost book: { Book };
}

impl Naming for Brand {
    ghost book = { record { number = 0; log_name = 0; cells_name = 0 } };
}

/// The rule of the book: its first word counts its words, of which one comes home with each entry.
pub struct Counted;

impl<E> Rule<E, u64> for Counted {
    ghost use Rattle.std.specs.Prelude.{[]};
    ghost use base.Fml.{ftrue};
    ghost use Rattle.yp_board.specs.inside.Histories.{IsCounted};

    ghost holds = { λ cells log. IsCounted cells log };

    ghost first = { [] };

    ghost hinted = { λ n log. Unit {0} };

    ghost shows = { λ log. [] };

    ghost keeps = { λ names log. ftrue };

    ghost moves = { λ ask before after answer. Unit {0} };
}

/// Callers trade nothing.
struct Nothing;

impl<E> Gain<E, u64> for Nothing {
    ghost use base.Fml.{ftrue};

    ghost after = { λ names about answer. ftrue };
}

/// The step that adds an entry, with the first word that isn't at home.
struct Add;

impl<E> Play<E, u64> for Add {
    ghost use Rattle.yp_board.specs.inside.Histories.{Adds};

    ghost then = { Adds };
}

impl<E> Plain<E, E, u64> for Add {
    ghost use Rattle.std.specs.Prelude.{None};

    ghost ask = { λ entry. entry };

    ghost state = { λ entry. None };
}

/// The step that adds a word.
struct Open;

impl<E> Play<E, u64> for Open {
    ghost use Rattle.yp_board.specs.inside.Histories.{OpensHistory};

    ghost then = { OpensHistory };
}

/// The step that looks how long the log is.
struct Look;

impl<E> Play<E, u64> for Look {
    ghost use Rattle.yp_board.specs.inside.Histories.{Looks};

    ghost then = { Looks };
}

/// What a step asks that adds no entry.
#[derive(Drop)]
struct NoEntry;

impl<E: Entry> Plain<NoEntry, E, u64> for Look {
    ghost use Rattle.std.specs.Prelude.{None};

    ghost ask = { λ none. E.blank };

    ghost state = { λ none. None };
}

/// A log with nothing in it, which has no name yet. Contracts see which book it is.
#[derive(Drop)]
pub struct Opened<E> {
    head: Word<E, u64, Counted>,
    seen: Seen<E, u64, Counted>,
}

impl<E> Model for Opened<E> {
    ghost use Rattle.std.specs.Prelude.{◌≡◌, []};
    ghost use Rattle.logbook.specs.Pages.{Book, book_coded};
    ghost use Rattle.yp_board.specs.inside.Histories.{head_of};

    ghost Value = { Book };

    ghost coded = { book_coded };

    ghost view = { λ o. o.seen.book };

    ghost invariant = { λ o. (o.seen.log ≡ []) × (o.head ≡ head_of o.seen.book) };
}

impl<E: Entry> Opened<E> {
    /// A new log. It takes no memory.
    pub fn new() -> Opened<E> {
        let (seen, mut first, _second) = Seen::open(Start::alone(), FIRST_WORDS, 0);
        Opened {
            head: Word::tracked(FIRST_WORDS, &mut first),
            seen,
        }
    }

    /// The log under a name. There is none where the words of the book aren't counted as they should be.
    pub fn named<J: Naming>(self) -> Option<History<J, E>>
        requires { self ≡ J.book }
        ensures { IfSome result (λ history. history ≡ []) }
    {
        let Opened { head, seen } = self;
        let pen = next_word(&head, &seen, FIRST_WORDS)?;
        let front = Front {
            count: 0,
            seen,
            of: PhantomData,
        };
        Some(History { head, pen, front })
    }
}

/// A front of a log, with its length. It stays one for good. Contracts see it as a log.
#[derive(Drop)]
pub struct Front<J: Naming, E> {
    count: u64,
    seen: Seen<E, u64, Counted>,
    of: PhantomData<J>,
}

impl<J: Naming, E> Model for Front<J, E> {
    ghost use Rattle.std.specs.Prelude.{◌≡◌, List, length};

    ghost Value = { List E };

    ghost view = { λ f. f.seen.log };

    ghost invariant = { λ f. (f.count ≡ length f.seen.log) × (f.seen.book ≡ J.book) };
}

impl<J: Naming, E> Front<J, E> {
    /// A copy of the front.
    pub fn again(&self) -> Front<J, E>
        ensures { result ≡ self.now }
    {
        Front {
            count: self.count,
            seen: self.seen.again(),
            of: PhantomData,
        }
    }

    /// This front, or another one that is known, where that is longer.
    pub fn with_known(&self, known: Option<Front<J, E>>) -> Front<J, E>
        ensures this { IsFront self.now result }
        ensures that { IfSome known (λ front. IsFront front result) }
    {
        match known {
            Some(front) if self.is_behind(&front) => front,
            _ => self.again(),
        }
    }

    /// Whether the other one begins with this one, and goes on.
    pub fn is_behind(&self, other: &Front<J, E>) -> bool
        ensures { MatchBool result (IsFront self.now other.now) (IsFront other.now self.now) }
    {
        let mut both = self.seen.again();
        both.learn(&other.seen);
        self.count < other.count
    }
}

/// A log, for the one who writes it. Contracts see it as a log. It has the pen of the word that the next entry comes
/// with, so nobody else can make the log longer.
#[derive(Drop)]
pub struct History<J: Naming, E> {
    head: Word<E, u64, Counted>,
    pen: Pen,
    front: Front<J, E>,
}

impl<J: Naming, E> Model for History<J, E> {
    ghost use Rattle.std.specs.Prelude.{◌≡◌, List};
    ghost use Rattle.yp_board.specs.inside.Histories.{head_of, IsNext};

    ghost Value = { List E };

    ghost view = { λ h. h.front };

    ghost invariant = { λ h. (h.head ≡ head_of J.book) × (h.pen.book ≡ J.book) × IsNext h.front h.pen.nib };
}

impl<J: Naming, E: Entry> History<J, E> {
    /// The whole log.
    pub fn front(&self) -> &Front<J, E>
        ensures { result.now ≡ self.now }
    {
        &self.front
    }

    /// Adds an entry. It adds nothing where the words of the book aren't counted as they should be.
    pub fn push(&mut self, entry: &E) -> bool
        ensures { self.new ≡ (if result then self.old ++ entry.now ∷ [] else self.old) }
    {
        if self.front.count >= MOST {
            return false;
        }
        let words = self.front.count + FIRST_WORDS + 1;
        let Some(pen) = next_word(&self.head, &self.front.seen, words) else {
            return false;
        };
        self.front = self.front.with(&self.head, &mut self.pen, entry);
        self.pen = pen;
        true
    }

    /// What is known of the log is a front of it.
    #[tactic(auto, using(crate::proofs::Fronts::covered))]
    pub fn covers(&mut self, front: &Front<J, E>)
        ensures front { IsFront front.now self.old }
        ensures same { self.new ≡ self.old }
    {
        let mut seen = self.front.seen.again();
        seen.learn(&front.seen);
        look_with(&self.head, &mut self.pen, &mut seen);
    }
}

/// Looks at the log with the pen of the word that the next entry comes with.
fn look_with<E: Entry>(
    head: &Word<E, u64, Counted>,
    pen: &mut Pen,
    seen: &mut Seen<E, u64, Counted>,
)
    requires head { head.now ≡ head_of seen.old.book }
    requires pen { (pen.old.book ≡ seen.old.book) × (pen.old.nib.right ≡ may_write) × (0 < pen.old.nib.key) }
    ensures grown { IsPrefix seen.old.log seen.new.log }
    ensures whole { length seen.new.log + 2 ≤ pen.old.nib.key }
    ensures pen { (pen.new.book ≡ pen.old.book) × (pen.new.nib ≡ pen.old.nib) }
{
    let mut offer: Offer<E, u64, Counted, Nothing> = seen.plain::<Nothing, NoEntry, Look>(&NoEntry);
    head.compare_exchange::<Look, Nothing>(0, 0, seen, &mut offer, pen);
}

/// One word more of a book, where it has so many, and the right to bring it home.
fn next_word<E: Entry>(
    head: &Word<E, u64, Counted>,
    seen: &Seen<E, u64, Counted>,
    words: u64,
) -> Option<Pen>
    requires head { head.now ≡ head_of seen.now.book }
    requires room { words < 2 ^ 64 - 1 }
    ensures book { IfSome result (λ pen. pen.book ≡ seen.now.book) }
    ensures pen { IfSome result (λ pen. (pen.nib.right ≡ may_write) × (pen.nib.key ≡ words)) }
{
    let mut seen = seen.again();
    let mut offer: Offer<E, u64, Counted, Nothing> = seen.plain::<Nothing, NoEntry, Look>(&NoEntry);
    let mut pen = seen.no_pen();
    let found = head.compare_exchange::<Open, Nothing>(
        words,
        words + 1,
        &mut seen,
        &mut offer,
        &mut pen,
    );
    if found != words {
        return None;
    }
    let _word: Word<E, u64, Counted> = Word::tracked(0, &mut pen);
    Some(pen)
}

impl<J: Naming, E> Front<J, E> {
    /// The front with one entry more, which is added to the log behind it.
    fn with(&self, head: &Word<E, u64, Counted>, pen: &mut Pen, entry: &E) -> Front<J, E>
        requires head { head.now ≡ head_of J.book }
        requires pen { (pen.old.book ≡ J.book) × IsNext self.now pen.old.nib }
        requires room { length self.now < 2 ^ 63 }
        ensures { result ≡ self.now ++ entry.now ∷ [] }
    {
        let mut seen = self.seen.again();
        let mut offer: Offer<E, u64, Counted, Nothing> = seen.plain::<Nothing, E, Add>(entry);
        head.compare_exchange::<Add, Nothing>(0, 0, &mut seen, &mut offer, pen);
        Front {
            count: self.count + 1,
            seen,
            of: PhantomData,
        }
    }
}
