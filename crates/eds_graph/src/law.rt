//! Laws on ways: functions with no body, whose contracts are what was proved.

ghost use Rattle.eds_graph.specs.Laws.{HeightIsLongest, WaysEnd, CirclesAreEndless, CourseTellsDepth, IsMetBackwards};

/// From a number that reaches no circle a way of more than so many numbers starts exactly where its height is greater.
pub fn height_is_longest()
    ensures { HeightIsLongest }
{}

/// From a number that reaches no circle no way has more numbers than its height.
pub fn ways_end()
    ensures { WaysEnd }
{}

/// From a number that reaches a circle ways of any length start.
pub fn circles_are_endless()
    ensures { CirclesAreEndless }
{}

/// What is read off a number's course on depth is whether so long a way starts there.
pub fn course_tells_depth()
    ensures { CourseTellsDepth }
{}

/// The other way round a number is met from just those that meet it.
pub fn is_met_backwards()
    ensures { IsMetBackwards }
{}
