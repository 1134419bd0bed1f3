// The check of a whole snapshot or delta.
ghost use Rattle.std.specs.Prelude.{◌≡◌};
ghost use Rattle.body.specs.Tag.{good_aspa_body};
ghost use Rattle.field.specs.Verdict.{verdict};
ghost use Rattle.verdict.specs.Progress.{refused_at, Refuses};

use crate::pass::pass;
use body::tag::{Action, Form, Tag, aspa_body_ok, body_sound, kind_of, tag_of};
use field::head::{Field, field_at};
use field::key::{Key, key_at, key_compare};
use field::verdict::Flaw;
use std::cmp::Ordering;

// The refusal of an ASPA's field at `at`, whose body breaks its rule or makes no sense.
fn refused_aspa(action: Action, body: &[u8], at: usize) -> Flaw
    ensures { result ≡ refused_at (good_aspa_body action body.now) at }
{
    if aspa_body_ok(action, body) {
        return Flaw::Senseless { at };
    }
    Flaw::Bad { at }
}

// The refusal of the field at `at`, whose body breaks its rule or makes no sense.
fn refused(form: Form, tag: u8, body: &[u8], at: usize) -> Flaw
    ensures { Refuses form tag body.now at result }
{
    match tag_of(form, tag) {
        Tag::Unknown | Tag::Origin(_) | Tag::RouterKey(_) => Flaw::Bad { at },
        Tag::Aspa(action) => refused_aspa(action, body, at),
    }
}

// The check of a snapshot or a delta.
pub fn check(form: Form, s: &[u8]) -> Result<(), Flaw>
    ensures { result ≡ verdict form s.now }
{
    let mut at = 0;
    let mut before = Key {
        kind: 0,
        from: 0,
        to: 0,
    };
    loop {
        match field_at(s, at) {
            Field::End => return Ok(()),
            Field::Cut => return Err(Flaw::Bad { at }),
            Field::Whole { tag, from, to } => {
                if !body_sound(form, tag, &s[from..to]) {
                    return Err(refused(form, tag, &s[from..to], at));
                }
                let key = key_at(kind_of(form, tag), from, to);
                match key_compare(s, before, s, key) {
                    Ordering::Less => {
                        let stand = pass(form, s, to, key);
                        let last = stand.before;
                        before = last;
                        at = stand.at;
                    }
                    Ordering::Equal => return Err(Flaw::NotAbove { at }),
                    Ordering::Greater => return Err(Flaw::NotAbove { at }),
                }
            }
        }
    }
}
