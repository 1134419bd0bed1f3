// Tags: the kind of a field's item, what a delta does with it, and so which rules its body follows.
ghost use Rattle.std.specs.Prelude.{◌≡◌, ◌&&◌};
ghost use Rattle.body.specs.Tag.{item_tag, change_tag, tag_of, kind_of, good_aspa_body, sensible_aspa_body};
ghost use Rattle.body.specs.Sound.{sound};

use crate::aspa::{aspa_ok, aspa_sound, update_ok, update_sound};
use crate::origin::origin_ok;
use crate::router_key::router_key_ok;

// The runs of fields that there are.
#[derive(Clone, Copy, PartialEq, Eq)]
pub enum Form {
    Snapshot,
    Delta,
}

// What a field does with its item: a snapshot holds it.
#[derive(Clone, Copy, PartialEq, Eq)]
pub enum Action {
    Hold,
    Announce,
    Withdraw,
    Update,
}

// What a tag says: the kind of the item, and the action.
// Kept: the clauses of `good_body` and `sensible` go by these four.
#[derive(Clone, Copy, PartialEq, Eq)]
pub enum Tag {
    Unknown,
    Origin(Action),
    RouterKey(Action),
    Aspa(Action),
}

// A snapshot's tag.
// Kept: this and the next are document 01's two tables of tags.
fn item_tag(tag: u8) -> Tag
    ensures { result ≡ item_tag tag }
{
    match tag {
        0x01 => Tag::Origin(Action::Hold),
        0x02 => Tag::RouterKey(Action::Hold),
        0x03 => Tag::Aspa(Action::Hold),
        _ => Tag::Unknown,
    }
}

// A delta's tag.
fn change_tag(tag: u8) -> Tag
    ensures { result ≡ change_tag tag }
{
    match tag {
        0x11 => Tag::Origin(Action::Announce),
        0x12 => Tag::Origin(Action::Withdraw),
        0x21 => Tag::RouterKey(Action::Announce),
        0x22 => Tag::RouterKey(Action::Withdraw),
        0x31 => Tag::Aspa(Action::Announce),
        0x32 => Tag::Aspa(Action::Withdraw),
        0x33 => Tag::Aspa(Action::Update),
        _ => Tag::Unknown,
    }
}

// What a tag says in a snapshot or in a delta.
pub fn tag_of(form: Form, tag: u8) -> Tag
    ensures { result ≡ tag_of form tag }
{
    match form {
        Form::Snapshot => item_tag(tag),
        Form::Delta => change_tag(tag),
    }
}

// The number of the kind, which a field's key starts with.
pub fn kind_of(form: Form, tag: u8) -> u8
    ensures { result ≡ kind_of form tag }
{
    match tag_of(form, tag) {
        Tag::Unknown => 0,
        Tag::Origin(_) => 1,
        Tag::RouterKey(_) => 2,
        Tag::Aspa(_) => 3,
    }
}

// Whether the body of an ASPA's field keeps to its rule.
pub fn aspa_body_ok(action: Action, body: &[u8]) -> bool
    ensures { result ≡ good_aspa_body action body.now }
{
    match action {
        Action::Hold | Action::Announce | Action::Withdraw => aspa_ok(body),
        Action::Update => update_ok(body),
    }
}

// Whether the body of an ASPA's field keeps to its rule and makes sense.
fn aspa_body_sound(action: Action, body: &[u8]) -> bool
    ensures { result ≡ good_aspa_body action body.now && sensible_aspa_body action body.now }
{
    match action {
        Action::Hold | Action::Announce | Action::Withdraw => aspa_sound(body),
        Action::Update => update_sound(body),
    }
}

// Whether the tag is known and the body keeps to its rule and makes sense.
pub fn body_sound(form: Form, tag: u8, body: &[u8]) -> bool
    ensures { result ≡ sound form tag body.now }
{
    match tag_of(form, tag) {
        Tag::Unknown => false,
        Tag::Origin(_) => origin_ok(body),
        Tag::RouterKey(_) => router_key_ok(body),
        Tag::Aspa(action) => aspa_body_sound(action, body),
    }
}
