// Nodes in a model: a node's clauses are all true where its output has its gate's value.
ghost use Rattle.std.specs.Prelude.{◌≡◌, [], ◌∷◌, ◌++◌, map};
ghost use Rattle.scope.specs.Cnf.{bit, opp, clause, clauses, pairs};

// Whether some literal is true.
fn some_true(model: &[u8], lits: &[u32]) -> bool
    ensures { result ≡ clause (bit model.now) lits.now }
{
    for l in lits {
        if sink::judge::literal_true(model, *l) {
            return true;
        }
    }
    false
}

// Whether the clauses of the node are all true whose long clause is some literals and then q: q is true where none of them is.
pub fn node_right(model: &[u8], lits: &[u32], q: u32) -> bool
    ensures { result ≡ clauses (bit model.now) (pairs (map opp lits.now) (opp q) ++ (lits.now ++ q ∷ []) ∷ []) }
{
    let t = sink::judge::literal_true(model, q);
    if some_true(model, lits) {
        return !t;
    }
    t
}
