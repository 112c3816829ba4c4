// The forms of a plan's fields, one after the other.
ghost use Rattle.std.specs.Iterator.{YieldsFirstBy, item_count};
ghost use Rattle.rules.specs.Form.{form_in};
ghost use Rattle.plan.specs.Walk.{forms_left};

use rules::FormRef;

// What is left of a plan's headers, of three bytes each, and of the positions of their fields.
#[derive(Clone, Copy)]
pub struct Forms<'a> {
    pub(crate) headers: &'a [u8],
    pub(crate) positions: &'a [u8],
}

impl<'a> Iterator for Forms<'a> {
    type Item = FormRef<'a>;

    ghost next_gives = { YieldsFirstBy form_in forms_left };

    ghost remaining = { item_count forms_left };

    fn next(&mut self) -> Option<FormRef<'a>> {
        let [n, vee, kind, headers @ ..] = self.headers else {
            return None;
        };
        let (roles, positions) = self.positions.split_at_checked(*n as usize)?;
        self.headers = headers;
        self.positions = positions;
        Some(FormRef {
            roles,
            vee: *vee as usize,
            kind: *kind,
        })
    }
}
