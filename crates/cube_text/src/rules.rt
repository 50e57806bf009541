ghost use Rattle.std.specs.Prelude.{◌≡◌, ◌≤◌, MatchOption, length};
ghost use Rattle.cube_text.specs.Texts.{IsNoRule, read_rule, rule_text};

use cube_actions::MoneyRule;

/// `cubeless`, `money`, `jacoby`, `money-beavers` or `jacoby-beavers`.
pub fn print_rule(rule: MoneyRule) -> &'static str
    ensures text { result.now ≡ rule_text rule }
    ensures short { length result.now ≤ 14 }
{
    match rule {
        MoneyRule::Cubeless => "cubeless",
        MoneyRule::Money => "money",
        MoneyRule::Jacoby => "jacoby",
        MoneyRule::MoneyBeavers => "money-beavers",
        MoneyRule::JacobyBeavers => "jacoby-beavers",
    }
}

/// The rule of a text. `None` exactly where no rule has that text.
pub fn read_rule(text: &str) -> Option<MoneyRule>
    ensures read { result ≡ read_rule text.now }
    ensures named { MatchOption result (IsNoRule text.now) (λ rule. text.now ≡ rule_text rule) }
{
    match text {
        "cubeless" => Some(MoneyRule::Cubeless),
        "money" => Some(MoneyRule::Money),
        "jacoby" => Some(MoneyRule::Jacoby),
        "money-beavers" => Some(MoneyRule::MoneyBeavers),
        "jacoby-beavers" => Some(MoneyRule::JacobyBeavers),
        _ => None,
    }
}
