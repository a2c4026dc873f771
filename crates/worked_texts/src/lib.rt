//! Family files, what is written of them, and what is made of them, for the crates of worked calls.
#![tactic(auto)]

mod fixtures;

pub use fixtures::{closes, family_of, is_printed, plan_of, worked};

/// The massive tadpole with a probe.
pub const TADPOLE: &str = r#"version = 1
name = "tadpole"
loops = 1
legs = 0
variables = 1
dimension = 12
baikov = "z1 + 1"
zero = [[]]
targets = [[3]]

[probe]
field = ["z1^2 + z1"]
factor = "z1"
seed = [2]
"#;

/// The massless bubble.
pub const BUBBLE: &str = r#"version = 1
name = "bubble"
loops = 1
legs = 1
variables = 2
dimension = 17
baikov = "4*s*z1 - (z2 - z1 - s)^2"
zero = [[1], [2]]
targets = [[2, 1]]

[numbers]
s = 1
"#;

/// A family with a plane for its polynomial, and three targets.
pub const PLANE: &str = r#"version = 1
name = "plane"
loops = 1
legs = 1
variables = 2
dimension = 17
baikov = "z1 + z2 + 1"
targets = [[1, 1], [1, 0], [0, 1]]

[probe]
field = ["z1", "z2 + 1"]
factor = "1"
seed = [1, -1]
"#;

/// A family with a quadratic polynomial in one variable.
pub const QUAD: &str = r#"version = 1
name = "quad"
loops = 1
legs = 0
variables = 1
dimension = 12
baikov = "z1^2 + 1"
targets = [[2]]
"#;

/// The massless box, with numbers for its kinematics.
pub const BOX: &str = r#"version = 1
name = "box"
loops = 1
legs = 3
variables = 4
dimension = 1234567
baikov = "4*s*t*u*z1 + t^2*(z2-z1)^2 + u^2*(z3-z2-s)^2 + s^2*(z4-z3+s)^2 - 2*t*u*(z2-z1)*(z3-z2-s) - 2*s*t*(z2-z1)*(z4-z3+s) - 2*s*u*(z3-z2-s)*(z4-z3+s)"
zero = [[1, 2], [2, 3], [3, 4], [1, 4]]
targets = [[1, 1, 1, 1], [2, 1, 1, 1], [1, 1, 2, 1], [1, 1, 1, -2], [1, -1, 1, -1], [1, 1, -1, 2]]

[numbers]
s = 1
t = 3
u = -4

[bounds]
dots_cap = 1
rank_cap = 2
"#;

/// What `plain` writes of [`TADPOLE`].
pub const TADPOLE_SYSTEM: &str = r#"neatibp-system 1
family tadpole
sectors 1
sector 1 fields 1
field 1: 1*z1 + 1 ; 1*z1
relations 2
relation 1: sector 1 seed [2] field 1
row 2147483646*I[2] 5*I[1]
relation 2: sector 1 seed [3] field 1
row 2147483645*I[3] 4*I[2]
targets 1
target [3]
reduces 10*I[1]
weights 1:2147483645 2:1073741823
end
"#;

/// What `plain` writes of [`BUBBLE`].
pub const BUBBLE_SYSTEM: &str = r#"neatibp-system 1
family bubble
sectors 1
sector 3 fields 2
field 1: 2*z2, 1*z1 + 1*z2 + 2147483646 ; 2*z2
field 2: 1*z1 + 2147483644*z2 + 2147483646, 2147483645*z2 + 2 ; 2*z1 + 2147483643*z2
relations 1
relation 1: sector 3 seed [2,1] field 2
row 1*I[2,1] 14*I[1,1]
targets 1
target [2,1]
reduces 2147483633*I[1,1]
weights 1:1
end
"#;

/// What `plain` writes of [`PLANE`].
pub const PLANE_SYSTEM: &str = r#"neatibp-system 1
family plane
sectors 3
sector 3 fields 3
field 1: 1*z2, 1*z2 + 1 ; 1*z2
field 2: 0, 1*z1 + 1*z2 + 1 ; 1*z2
field 3: 1*z1 + 1, 2147483646*z2 + 2147483646 ; 1*z1 + 2147483646*z2
sector 2 fields 3
field 1: 1*z2, 2147483646 ; 0
field 2: 0, 1*z1 + 1*z2 + 1 ; 1*z2
field 3: 1*z1 + 1, 1 ; 1
sector 1 fields 3
field 1: 1, 1*z2 + 1 ; 1
field 2: 2147483646, 1*z1 ; 0
field 3: 1*z1 + 1*z2 + 1, 0 ; 1*z1
relations 2
relation 1: sector 3 seed [1,1] field 1
row 8*I[1,0]
relation 2: sector 3 seed [1,1] field 3
row 8*I[0,1] 2147483639*I[1,0]
targets 3
target [1,1]
reduces 1*I[1,1]
weights none
target [1,0]
reduces 0
weights 1:268435456
target [0,1]
reduces 0
weights 1:268435456 2:268435456
end
"#;

/// What `plain` writes of [`QUAD`].
pub const QUAD_SYSTEM: &str = r#"neatibp-system 1
family quad
sectors 2
sector 1 fields 1
field 1: 1*z1^2 + 1 ; 2*z1^2
sector 0 fields 1
field 1: 1*z1^2 + 1 ; 2*z1
relations 1
relation 1: sector 1 seed [2] field 1
row 2147483646*I[2] 11*I[0]
targets 1
target [2]
reduces 11*I[0]
weights 1:2147483646
end
"#;
