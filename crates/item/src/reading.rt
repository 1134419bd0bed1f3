// A run of fields read as changes: a delta's own, or a snapshot's items as all withdrawn or all announced.
ghost use Rattle.std.specs.Prelude.{◌≡◌};
ghost use Rattle.payload.specs.Content.{action_of};
ghost use Rattle.item.specs.Reading.{form_of, held_place, act_place, split_place, SplitFits, Splits, Ready, Reads};

use crate::place::{Act, Entry, Part};
use body::tag::{Action, Form, Tag, kind_of, tag_of};
use field::head::{Field, field_at};
use field::key::key_at;
use number::two_at;

#[derive(Clone, Copy, PartialEq, Eq)]
pub enum Reading {
    Withdrawn,
    Announced,
    Changes,
}

// Fields, and how they are read.
#[derive(Clone, Copy)]
pub struct Run<'a> {
    pub reading: Reading,
    pub bytes: &'a [u8],
}

impl<'a> Run<'a> {
    // The item at a place of a good run, if one stands there.
    pub fn read(self, at: usize) -> Option<Entry>
        requires { Ready self.reading self.bytes.now at }
        ensures { Reads self.entry.reading self.entry.bytes.now at result }
    {
        read_at(self.reading, self.bytes, at)
    }
}

pub fn form_of(reading: Reading) -> Form
    ensures { result ≡ form_of reading }
{
    match reading {
        Reading::Withdrawn | Reading::Announced => Form::Snapshot,
        Reading::Changes => Form::Delta,
    }
}

fn action_of(tag: Tag) -> Action
    ensures { result ≡ action_of tag }
{
    match tag {
        Tag::Unknown => Action::Hold,
        Tag::Origin(action) | Tag::RouterKey(action) | Tag::Aspa(action) => action,
    }
}

// The values of an update: a count of former providers, those, then the new ones.
fn split(s: &[u8], values: Part) -> Act
    requires { SplitFits s.now values }
    ensures { result ≡ split_place s.now values }
{
    let from = values.from;
    let start = from + 2;
    let middle = start + two_at(s, from) * 4;
    Act::Update(
        Part {
            from: start,
            to: middle,
        },
        Part {
            from: middle,
            to: values.to,
        },
    )
}

// An item that a snapshot holds, as withdrawn or as announced.
fn held_as(reading: Reading, values: Part) -> Act
    ensures { result ≡ held_place reading values }
{
    match reading {
        Reading::Withdrawn => Act::Withdraw(values),
        Reading::Announced | Reading::Changes => Act::Announce(values),
    }
}

// The change of a field, by its action and where its values lie.
fn act_at(reading: Reading, action: Action, s: &[u8], values: Part) -> Act
    requires { Splits action s.now values }
    ensures { result ≡ act_place reading action s.now values }
{
    match action {
        Action::Hold => held_as(reading, values),
        Action::Announce => Act::Announce(values),
        Action::Withdraw => Act::Withdraw(values),
        Action::Update => split(s, values),
    }
}

// The item of the field at a place of a good run, if one stands there.
pub fn read_at(reading: Reading, s: &[u8], at: usize) -> Option<Entry>
    requires { Ready reading s.now at }
    ensures { Reads reading s.now at result }
{
    match field_at(s, at) {
        Field::End => None,
        // Never: the run is good.
        Field::Cut => None,
        Field::Whole { tag, from, to } => {
            let form = form_of(reading);
            let key = key_at(kind_of(form, tag), from, to);
            let values = Part { from: key.to, to };
            let act = act_at(reading, action_of(tag_of(form, tag)), s, values);
            Some(Entry { key, act, next: to })
        }
    }
}
