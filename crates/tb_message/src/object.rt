//! An object of JSON, looked into by the members that a request may have.
ghost use Rattle.std.specs.Prelude.{◌≡◌, is_some, map, option_map};
ghost use Rattle.serde_json.specs.Data.{Data};
ghost use Rattle.serde_json.specs.Find.{get, as_object};
ghost use Rattle.serde_json.specs.View.{view};
ghost use Rattle.tb_terms.specs.Refusals.{member_of};
ghost use Rattle.tb_message.specs.Requests.{text_in, whole_in, signed_in};

use serde_json::Value;
use tb_terms::Field;

/// A value of JSON that may be an object with members.
pub(crate) trait Object {
    ghost said: { Self → Data };

    fn is_object(&self) -> bool
        ensures { result ≡ is_some (as_object (said self.now)) };

    /// The text that a member is.
    fn text(&self, field: Field) -> Option<&str>
        ensures { option_map (λ s. s.now) result ≡ text_in (get (member_of field) (said self.now)) };

    /// The whole number that a member is, from zero on.
    fn whole(&self, field: Field) -> Option<u64>
        ensures { result ≡ whole_in (get (member_of field) (said self.now)) };

    /// The whole number that a member is, on both sides of zero.
    fn signed(&self, field: Field) -> Option<i64>
        ensures { result ≡ signed_in (get (member_of field) (said self.now)) };
}

impl Object for Value {
    ghost said = { view };

    fn is_object(&self) -> bool {
        Value::is_object(self)
    }

    fn text(&self, field: Field) -> Option<&str> {
        self.get(field.member()).and_then(Value::as_str)
    }

    fn whole(&self, field: Field) -> Option<u64> {
        self.get(field.member()).and_then(Value::as_u64)
    }

    fn signed(&self, field: Field) -> Option<i64> {
        self.get(field.member()).and_then(Value::as_i64)
    }
}
