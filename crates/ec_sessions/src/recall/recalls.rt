// The wants that wait, by session and object and in the order of arrival.
ghost use Rattle.std.specs.Prelude.{◌≡◌, ◌≢◌, ◌==◌, [], not, filter, IfOk, OnOk, OnErr};
ghost use Rattle.ec_sessions.specs.OfRecall.Due as due;
ghost use Rattle.ec_sessions.specs.OfRecall.Wants as wants;
ghost use Rattle.ec_sessions.specs.OfRecall.Keys.{AreApart, IsKeyed, same_key};
ghost use Rattle.ec_sessions.specs.OfRecall.Rounds.{GrantsGoIn};
ghost use Rattle.ec_sessions.specs.OfTokens.SoundTokens.{IsSound};
ghost use Rattle.indexmap.specs.IndexMap.{IsUnique, values};

use crate::recall::due::serve;
use crate::recall::want::{Action, Want};
use crate::tokens::{Tokens, stronger};
use ec_base::{Hold, List, NoMemory, ObjId, SessionNo};
use indexmap::IndexMap;
use std::alloc::Global;
use std::marker::Model;

/// The wants that wait for their tokens, in the order of arrival.
pub struct Recalls {
    alloc: Global,
    wants: IndexMap<(u64, u32), Want>,
}

// Who drops one calls this, and needn't take it apart.
impl Drop for Recalls {
    fn drop(self) {
        let Recalls { alloc: _, wants } = self;
        drop(wants);
    }
}

impl Model for Recalls {
    ghost use Rattle.std.specs.Prelude.{List};
    ghost use Rattle.ec_sessions.specs.declared.recall.want.Want.{Want};
    ghost use Rattle.ec_sessions.specs.OfRecall.Keys.{IsKeyed, same_key};
    ghost use Rattle.ec_sessions.specs.OfRecall.HeldWants.{NoneFree};
    ghost use Rattle.indexmap.specs.IndexMap.{IsUnique, values};

    ghost Value = { List Want };

    ghost view = { λ r. values r.wants };

    ghost invariant = { λ r. IsKeyed r.wants.entries × IsUnique same_key r.wants × NoneFree (values r.wants) };
}

impl Recalls {
    /// No wants.
    pub fn new(alloc: Global) -> Result<Recalls, NoMemory>
        ensures { IfOk result (λ made. made ≡ []) }
    {
        Ok(Recalls {
            alloc,
            wants: IndexMap::new(alloc),
        })
    }

    /// Notes a want. A session has one want for an object, the stronger one, which keeps its place.
    /// Each further noting, a weaker one too, makes the recalls for the want due again.
    pub fn want(&mut self, s: SessionNo, obj: ObjId, hold: Hold) -> Result<(), NoMemory>
        requires { hold ≢ Hold.Free }
        ensures ok { OnOk result (self.new ≡ wants.noted s obj hold self.old) }
        ensures err { OnErr result (self.new ≡ self.old) }
    {
        let alloc = self.alloc;
        let key = key_of(s, obj);
        if let Some(want) = self.wants.get_mut(&key) {
            want.hold = stronger(want.hold, hold);
            want.told = List::of(Vec::new(alloc));
            return Ok(());
        }
        let want = Want {
            session: s,
            obj,
            hold,
            told: List::of(Vec::new(alloc)),
        };
        self.wants.insert(key, want)?;
        Ok(())
    }

    /// What is due at these tokens, in the order of arrival.
    ///
    /// A want that conflicts with no recorded token and with no grant before it in the list is
    /// granted, and leaves. Any other stays, and each conflicting holder is recalled, in session
    /// order, once for each noting of the want and number of the token: down to Read for a reader,
    /// and to Free for a writer. A grant of the list itself causes no recall.
    ///
    /// So the grants of the answer may be recorded one after the other, each with any number.
    pub fn due(&mut self, tokens: &Tokens) -> Result<Vec<Action>, NoMemory>
        ensures actions { IfOk result (λ actions. actions.items ≡ due.actions tokens.now self.old) }
        ensures wants { OnOk result (self.new ≡ due.wants_after tokens.now self.old) }
        ensures err { OnErr result (self.new ≡ self.old) }
        ensures grants { IfOk result (λ actions. IsSound tokens.now → GrantsGoIn tokens.now actions.items) }
    {
        let round = serve(self.alloc, tokens, self.wants.values().as_slice())?;
        self.wants = keyed(self.alloc, round.wants)?;
        Ok(round.actions)
    }

    /// Forgets the wants of the session. It takes no memory.
    pub fn drop_session(&mut self, s: SessionNo)
        ensures { self.new ≡ filter (λ w. not (w.session == s)) self.old }
    {
        self.wants.retain(|_, want| want.session != s);
    }
}

fn key_of(s: SessionNo, obj: ObjId) -> (u64, u32)
    ensures { result ≡ (s, obj) }
{
    (s.0, obj.get())
}

// The wants, of which no two have one key, by their keys.
fn keyed(alloc: Global, wants: Vec<Want>) -> Result<IndexMap<(u64, u32), Want>, NoMemory>
    requires { AreApart wants.items }
    ensures wants { IfOk result (λ map. values map ≡ wants.items) }
    ensures keyed { IfOk result (λ map. IsKeyed map.entries) }
    ensures unique { IfOk result (λ map. IsUnique same_key map) }
{
    let mut map = IndexMap::new(alloc);
    for want in wants {
        let key = key_of(want.session, want.obj);
        map.insert(key, want)?;
    }
    Ok(map)
}
