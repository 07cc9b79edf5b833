// The tokens of all sessions, of which no two conflict.
ghost use Rattle.std.specs.Prelude.{◌≡◌, ◌≢◌, [], None, Some, IfOk, IfErr, IfSome, OnOk, OnErr, IsTrue};
ghost use Rattle.std.specs.Bool.{OnTrue, OnFalse};
ghost use Rattle.std.specs.List.{filter};
ghost use Rattle.std.specs.Option.{option_map};
ghost use Rattle.std.specs.Ordering.{nat_cmp};
ghost use Rattle.ec_base.specs.Sorted.{without};
ghost use Rattle.ec_sessions.specs.OfTokens.Claims.{ShowsClash};
ghost use Rattle.ec_sessions.specs.OfTokens.Tokens as tokens;
ghost use Rattle.ec_sessions.specs.OfTokens.SoundTokens as sound_tokens;

use crate::tokens::holds::clash;
use crate::tokens::rows::{self, Rows};
use crate::tokens::token::Token;
use ec_base::{Hold, NoMemory, ObjId, SessionNo, SortedMap};
use std::alloc::Global;
use std::marker::Model;
use thiserror::Error;

/// Why tokens can't be claimed.
#[derive(Clone, Copy, Debug, Drop, PartialEq, Eq, Error)]
pub enum ClaimFault {
    /// A token on this object would conflict with that of this session.
    #[error("session {1:?} holds a conflicting token on object {0:?}")]
    Clash(ObjId, SessionNo),
    #[error("out of memory")]
    NoMemory,
}

impl From<NoMemory> for ClaimFault {
    ghost use Rattle.ec_sessions.specs.declared.tokens.tokens.ClaimFault.TheVariants as fault;

    ghost from_gives = { λ _ e. e ≡ fault.NoMemory };

    fn from(_: NoMemory) -> Self {
        ClaimFault::NoMemory
    }
}

/// What each session holds on each object.
///
/// Two tokens of different sessions on one object conflict where one is Write and the other isn't
/// Free. No two of the tokens kept here conflict.
///
/// They are kept by session, and then by object, in sorted maps: a look-up by object takes a search
/// in the row of each session, and a session is dropped, or claims, in one piece. A session without
/// a token has no row, so that two tables with the same tokens are one list.
pub struct Tokens {
    alloc: Global,
    rows: Rows,
}

// Who drops one calls this, and needn't take it apart.
impl Drop for Tokens {
    fn drop(self) {
        let Tokens { alloc: _, rows } = self;
        drop(rows);
    }
}

impl Model for Tokens {
    ghost use Rattle.std.specs.Prelude.{List, ℕ};
    ghost use Rattle.ec_sessions.specs.declared.tokens.token.Token.{Token};
    ghost use Rattle.ec_sessions.specs.OfTokens.SoundTokens.{IsSound};

    ghost Value = { List (ℕ × List (ℕ × Token)) };

    ghost view = { λ t. t.rows };

    ghost invariant = { λ t. IsSound t.rows };
}

impl Tokens {
    /// No tokens.
    pub fn new(alloc: Global) -> Result<Tokens, NoMemory>
        ensures { IfOk result (λ made. made ≡ []) }
    {
        Ok(Tokens {
            alloc,
            rows: SortedMap::new(alloc),
        })
    }

    /// The mode and the number of the session's token on the object, or `None` where it has none.
    pub fn token(&self, s: SessionNo, obj: ObjId) -> Option<(Hold, u64)>
        ensures token { result ≡ option_map (λ t. (t.hold, t.number)) (tokens.token self.now s obj) }
        ensures sound { sound_tokens.IsSound self.now }
    {
        let token = rows::token(&self.rows, s, obj)?;
        Some((token.hold, token.number))
    }

    /// The sessions that hold a token on the object, in their order, each with its mode and number.
    pub fn holders(&self, obj: ObjId) -> Result<Vec<(SessionNo, Hold, u64)>, NoMemory>
        ensures holders { IfOk result (λ list. list.items ≡ tokens.holders self.now obj) }
        ensures sound { sound_tokens.IsSound self.now }
    {
        rows::holders(self.alloc, &self.rows, obj)
    }

    /// Those holders, other than the session, whose token would conflict with this mode.
    pub fn conflicts(
        &self,
        s: SessionNo,
        obj: ObjId,
        hold: Hold,
    ) -> Result<Vec<(SessionNo, Hold, u64)>, NoMemory>
        ensures conflicts { IfOk result (λ list. list.items ≡ tokens.conflicts self.now s obj hold) }
        ensures sound { sound_tokens.IsSound self.now }
    {
        let mut holders = rows::holders(self.alloc, &self.rows, obj)?;
        holders.retain(|holder| holder.0 != s && clash(holder.1, hold));
        Ok(holders)
    }

    /// Whether no other session's token would conflict with this mode. It takes no memory.
    pub fn is_clear(&self, s: SessionNo, obj: ObjId, hold: Hold) -> bool
        ensures clear { result ≡ tokens.is_clear self.now s obj hold }
        ensures sound { sound_tokens.IsSound self.now }
    {
        rows::first_conflict(&self.rows, s, obj, hold).is_none()
    }

    /// Records a token, in the place of the session's token on the object.
    pub fn grant(
        &mut self,
        s: SessionNo,
        obj: ObjId,
        hold: Hold,
        number: u64,
    ) -> Result<(), NoMemory>
        requires held { hold ≢ Hold.Free }
        requires clear { IsTrue (tokens.is_clear self.old s obj hold) }
        ensures ok { OnOk result (self.new ≡ tokens.granted s obj hold number self.old) }
        ensures err { OnErr result (self.new ≡ self.old) }
        ensures sound { sound_tokens.IsSound self.new }
    {
        rows::record(self.alloc, &mut self.rows, s, obj, Token { hold, number })
    }

    /// Lowers the session's token on the object, or removes it at Free. False, with no change,
    /// where that token hasn't this number or is below the mode. It takes no memory.
    pub fn give_back(&mut self, s: SessionNo, obj: ObjId, number: u64, to: Hold) -> bool
        ensures answer { result ≡ tokens.fits_back (tokens.token self.old s obj) number to }
        ensures lowered { OnTrue result (self.new ≡ tokens.lowered s obj to number self.old) }
        ensures kept { OnFalse result (self.new ≡ self.old) }
        ensures sound { sound_tokens.IsSound self.new }
    {
        rows::give_back(self.alloc, &mut self.rows, s, obj, number, to)
    }

    /// Records the tokens of the list, each with number 0, in the place of the session's tokens on
    /// these objects.
    ///
    /// # Errors
    ///
    /// `Clash` shows the first object of the list where a token would conflict, and the first
    /// session whose token it would conflict with. After an error nothing has changed.
    pub fn claim(&mut self, s: SessionNo, list: &[(ObjId, Hold)]) -> Result<(), ClaimFault>
        requires { IsTrue (sound_tokens.is_claim list.now) }
        ensures ok { OnOk result (self.new ≡ tokens.claimed s list.now self.old) }
        ensures clear { OnOk result (tokens.first_clash self.old s list.now ≡ None) }
        ensures clash { IfErr result (λ fault. ShowsClash (tokens.first_clash self.old s list.now) fault) }
        ensures err { OnErr result (self.new ≡ self.old) }
        ensures sound { sound_tokens.IsSound self.new }
    {
        for (obj, hold) in list {
            if let Some(other) = rows::first_conflict(&self.rows, s, *obj, *hold) {
                return Err(ClaimFault::Clash(*obj, other));
            }
        }
        rows::claim(self.alloc, &mut self.rows, s, list)?;
        Ok(())
    }

    /// Removes the tokens of the session. It takes no memory.
    pub fn drop_session(&mut self, s: SessionNo)
        ensures dropped { self.new ≡ without nat_cmp s self.old }
        ensures sound { sound_tokens.IsSound self.new }
    {
        self.rows.remove(&s);
    }
}
