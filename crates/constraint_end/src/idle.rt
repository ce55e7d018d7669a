// Kind 8: the list has the members but first and last of each group of a list.
ghost use Rattle.std.specs.Prelude.{◌≡◌, ◌≤◌, length};
ghost use Rattle.parsing.specs.Each.{Each};
ghost use Rattle.number.specs.Lists.{leading};
ghost use Rattle.constraint_end.specs.Inner.{GroupIn, inner_rows};

use crate::group::group_size;

pub fn length_of_idle(groups: &[u8], list: &[u16], count: u32) -> u32
    requires count_in_bounds { count ≤ length list.now }
    requires count_bound { count ≤ 2048 }
    requires each { Each (GroupIn groups.now) (leading count list.now) }
    ensures { result ≡ inner_rows groups.now (leading count list.now) }
{
    let mut sum: u32 = 0;
    for i in 0..count as usize {
        let size = group_size(groups, u32::from(list[i]));
        sum += size.saturating_sub(2);
    }
    sum
}
