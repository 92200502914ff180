// Properties: their file. Their meaning and the judge are definitions and stand in specs/.
#![tactic(auto)]

pub mod figures; // the figures of a property file
pub mod terms; // terms: a variable or a public name
pub mod facts; // facts with their time variables, and atoms
pub mod heads; // what stands before a quantifier's body
pub mod formulas; // formulas: 3 and 5 in one walk
pub mod ruling; // 3 and 5 of a property file
