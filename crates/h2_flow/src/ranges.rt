//! The bounds of values.

ghost use Rattle.std.specs.Prelude.{◌≡◌, None};
ghost use Rattle.h2_spec_log.specs.Acts.{Values, AreInRange};
ghost use Rattle.h2_flow.specs.Configs.{first_bad};

// contract: calls (own) A configuration is made of values within their bounds
/// None of the values is out of its bounds exactly if all are within them.
pub fn values_in_range()
    ensures within { (values : Values) → first_bad values ≡ None → AreInRange values }
    ensures none_bad { (values : Values) → AreInRange values → first_bad values ≡ None }
{}
