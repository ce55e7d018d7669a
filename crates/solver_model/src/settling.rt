// What is noted of each variable becomes its byte of the model, where each is given once.
ghost use Rattle.solver_model.specs.Settled.{SettledAs};

// 1 and 2, a literal with a minus and one without, become 0 and 1; the first 0 or 3 ends it, with the lowest variable that is
// missing or given twice.
pub fn settle(store: &mut [u8]) -> Result<(), u64>
    ensures { SettledAs store.old store.new result }
{
    for i in 0..store.len() {
        let b = store[i];
        if b == 0 {
            return Err(i as u64 + 1);
        }
        if b == 3 {
            return Err(i as u64 + 1);
        }
        store[i] = b - 1;
    }
    Ok(())
}
