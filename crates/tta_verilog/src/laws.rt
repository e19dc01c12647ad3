//! Laws of texts. A law is a function that does nothing, and whose contract is the law.

ghost use Rattle.tta_verilog.specs.Laws.{OneCircuit, OneCircuitBeside, OneExpression};

/// A text is that of at most one expression.
pub fn one_expression<N, M>()
    ensures { OneExpression N M }
{}

/// The text of the parts of a circuit is that of at most one circuit.
pub fn one_circuit<N, M>()
    ensures { OneCircuit N M }
{}

/// The text of the parts of a circuit with modules beside them is that of at most one circuit.
pub fn one_circuit_beside<N, M>()
    ensures { OneCircuitBeside N M }
{}
