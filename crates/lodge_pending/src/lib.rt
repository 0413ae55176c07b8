// A message that is read, before its energy is judged: the row that refuses it, or what its judgement by the limits looks at.
#![tactic(auto)]

ghost use Rattle.std.specs.Prelude.{◌≡◌, ℕ, IfOk};
ghost use Rattle.rules.specs.Message.{bad_fields};
ghost use Rattle.message.specs.View.{fields_in};
ghost use Rattle.session.specs.Parts.{Within};
ghost use Rattle.lodge_judge.specs.Judging.{GivesRow};
ghost use Rattle.lodge_pending.specs.Awaiting.{Found, Pends};

use listed::Listed;
use lodge_judge::judge_fields;
use lodge_keys::beside::beside_of;
use lodge_keys::{key_index, key_of};
use message::Fields;
use message_reader::{InForm, in_form};
use rules::LODGEMENTS;
use rules::row::Row;
use session::{Holder, Key, Session};

// Its fields and their key, the index of the lodgement that it replaces, its unit, and the indices of those that are counted beside it.
#[derive(Clone, Copy)]
pub struct Pending {
    pub fields: Fields,
    pub key: Key,
    pub replaces: Option<usize>,
    pub holder: Holder,
    pub beside: Listed<usize, LODGEMENTS>,
}

// What is found for a message of the right form, or the row from 4 to 9 that refuses it. (`Within`: `Session::sound` says why no type has it.)
fn found(s: &Session, m: InForm) -> Result<Pending, Row>
    requires { Within s.now }
    ensures rows { (top : ℕ) → m.out_of_range ≡ bad_fields top (fields_in m.fields) → GivesRow s.now top m.fields result }
    ensures found { IfOk result (Found s.now m.fields) }
{
    let key = key_of(&m.fields);
    let standing = &s.lodgements[..s.standing];
    let replaces = key_index(standing, key);
    let holder = judge_fields(s, &m.fields, key, m.out_of_range, replaces)?;
    let beside = beside_of(standing, key);
    Ok(Pending {
        fields: m.fields,
        key,
        replaces,
        holder,
        beside,
    })
}

// Reads a message: 2, 3, 4, 5, 6, 9. "After a 3 nothing further is read".
pub fn pend(s: &Session, message: &[u8]) -> Result<Pending, Row>
    ensures { Pends s.now message.now result }
{
    if !s.sound() {
        return Err(Row::Gate);
    }
    if s.closed {
        return Err(Row::Gate);
    }
    let m = in_form(message).ok_or(Row::Form)?;
    found(s, m)
}
