// The ruling of a property file: 3 over the whole file, then 5.
ghost use Rattle.std.specs.Prelude.{◌≡◌};
ghost use Rattle.lists.specs.Asks.{Asks, Promises};
ghost use Rattle.rewriting.specs.Answers.{answered};
ghost use Rattle.protocol.specs.Protocol.{Protocol, fact_arities};
ghost use Rattle.prepared.specs.Prepared.{Body};
ghost use Rattle.property.specs.Layout.{property};
ghost use Rattle.property.specs.Causes.{property_ruling};
ghost use Rattle.property.specs.Causes.Code.{plainly};

use crate::facts::File;
use crate::formulas;
use prepared::sections;
use rewriting::Refusal;

// Whether a property file is to be judged, under a prepared protocol.
pub fn rule_property(p: &[u8], f: &[u8]) -> Result<(), Refusal>
    requires { Asks (Body p.now) }
    ensures { Promises (Body p.now) (λ (P : Protocol). answered result ≡ plainly (property_ruling (property f.now (fact_arities P.symbols)))) }
{
    let file = File {
        bytes: f,
        arities: &p[sections::ARITIES..sections::LINEARS],
    };
    match formulas::see_property(file) {
        Some((_, true)) => Ok(()),
        Some((_, false)) => Err(Refusal {
            number: rewriting::VARIABLE_WRONG,
            item: rewriting::NO_ITEM,
        }),
        None => Err(Refusal {
            number: rewriting::LAYOUT,
            item: rewriting::PROPERTY_ITEM,
        }),
    }
}
